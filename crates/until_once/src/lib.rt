// E(a until b), at most c or at least c, which one run of the engine settles.
#![tactic(auto)]

ghost use Rattle.std.specs.Prelude.{◌<◌};
ghost use Rattle.tctl.specs.Formula.{at_most, at_least};
ghost use Rattle.until_start.specs.Lent.{Lent};
ghost use Rattle.operands.specs.FromOperands.{OperandsBelow};
ghost use Rattle.until_start.specs.Meets.{some_meets};
ghost use Rattle.operands.specs.FromOperands.{FromOperands};

use arrows::Chart;
use initial::Initial;
use rule::NodeWords;
use ways::{Climb, Way};

// The two are not one function with parameters: it would take all that their two calls take.

// E(a until b, at most c): the fewest minutes to b, through a.
pub fn some_at_most(chart: Chart, t: usize, node: NodeWords, marks: &mut [u8], numbers: &mut [u32])
    requires { Lent chart.bytes.now chart.states chart.arrows t marks.old numbers.old
        × OperandsBelow t node × (node.c < 65536) }
    ensures { FromOperands (some_meets (at_most node.c)) chart.entry.bytes.now chart.entry.states t
        node marks.old marks.new }
{
    let far = node.c + 1;
    until_start::run_from(
        Initial::Reach(far),
        Way::Lower,
        chart,
        t,
        node,
        marks,
        numbers,
    );
    fill::fill_limit(true, ways::TOP - far, chart.states, t, numbers, marks);
}

// E(a until b, at least c): the most minutes to b, through a.
pub fn some_at_least(chart: Chart, t: usize, node: NodeWords, marks: &mut [u8], numbers: &mut [u32])
    requires { Lent chart.bytes.now chart.states chart.arrows t marks.old numbers.old
        × OperandsBelow t node × (node.c < 65536) }
    ensures { FromOperands (some_meets (at_least node.c)) chart.entry.bytes.now chart.entry.states
        t node marks.old marks.new }
{
    let cap = node.c + 1;
    let way = Way::Raise(Climb {
        ticks: false,
        leap: false,
        cap,
    });
    until_start::run_from(Initial::Goal(cap), way, chart, t, node, marks, numbers);
    fill::fill_limit(true, node.c, chart.states, t, numbers, marks);
}
