// The engine on an until: from the operands' marks, with row t lent to it meanwhile; and the states from which no run
// fails the until or waits for it.
#![tactic(auto)]

ghost use Rattle.std.specs.Prelude.{suc, ◌≤◌};
ghost use Rattle.model.specs.Marks.{mark};
ghost use Rattle.ways.specs.Way.{highest};
ghost use Rattle.engine.specs.AsModel.{AllAsModel};
ghost use Rattle.until_start.specs.Lent.{Lent, Able};
ghost use Rattle.operands.specs.FromOperands.{OperandsBelow, Besides};
ghost use Rattle.until_start.specs.Risen.{Suits, Risen};
ghost use Rattle.until_start.specs.Meets.{unhindered_up_to};
ghost use Rattle.operands.specs.FromOperands.{FromOperands};

use arrows::Chart;
use initial::Initial;
use rule::NodeWords;
use ways::{Climb, Way};

// The engine, to which row t is lent and which leaves it as anything.
pub fn run(way: Way, chart: Chart, t: usize, marks: &mut [u8], numbers: &mut [u32])
    requires { Lent chart.bytes.now chart.states chart.arrows t marks.old numbers.old
        × Able way numbers.old }
    ensures { Besides chart.entry.states t marks.old marks.new
        × AllAsModel way chart.entry.bytes.now chart.entry.states numbers.old numbers.new }
{
    let at = t * chart.states;
    let end = at + chart.states;
    engine::settle(way, chart, &mut marks[at..end], numbers);
}

// The engine, from an initial of the operands' marks.
pub fn run_from(
    initial: Initial,
    way: Way,
    chart: Chart,
    t: usize,
    node: NodeWords,
    marks: &mut [u8],
    numbers: &mut [u32],
)
    requires { Lent chart.bytes.now chart.states chart.arrows t marks.old numbers.old
        × OperandsBelow t node × Suits initial way }
    ensures { Besides chart.entry.states t marks.old marks.new
        × Risen initial way chart.entry.bytes.now chart.entry.states
        (mark chart.entry.states marks.old node.a) (mark chart.entry.states marks.old node.b)
        numbers.new }
{
    initial::fill_numbers(initial, chart.states, node.a, node.b, marks, numbers);
    run(way, chart, t, marks, numbers);
}

// The states from which no run fails the until, or waits for it, up to a limit of minutes or of ticks.
pub fn unhindered(
    ticks: bool,
    limit: u32,
    chart: Chart,
    t: usize,
    node: NodeWords,
    marks: &mut [u8],
    numbers: &mut [u32],
)
    requires { Lent chart.bytes.now chart.states chart.arrows t marks.old numbers.old
        × OperandsBelow t node × (suc limit ≤ highest) }
    ensures { FromOperands (unhindered_up_to ticks limit) chart.entry.bytes.now chart.entry.states
        t node marks.old marks.new }
{
    let cap = limit + 1;
    let way = Way::Raise(Climb {
        ticks,
        leap: false,
        cap,
    });
    run_from(Initial::Fail(cap), way, chart, t, node, marks, numbers);
    fill::fill_limit(false, limit, chart.states, t, numbers, marks);
}
