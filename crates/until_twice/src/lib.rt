// A(a until b, at least c), c above 0, which two runs of the engine settle.
#![tactic(auto)]

ghost use Rattle.std.specs.Prelude.{◌<◌};
ghost use Rattle.tctl.specs.Formula.{at_least};
ghost use Rattle.model.specs.Marks.{mark};
ghost use Rattle.chart.specs.Bytes.{chart_of};
ghost use Rattle.until_start.specs.Lent.{Lent};
ghost use Rattle.operands.specs.FromOperands.{OperandsBelow};
ghost use Rattle.until_start.specs.Meets.{all_meet, all_meet_plain};
ghost use Rattle.operands.specs.FromOperands.{FromOperands};
ghost use Rattle.until_twice.specs.Starts.{Starts};

use arrows::Chart;
use initial::Initial;
use rule::NodeWords;
use ways::Way;

// What A(a until b, at least c) starts from: c where a holds and every arrow leads to where the until with no bound
// can't fail, else 0. Where that until holds nowhere, the answer is no and nothing else is told.
fn sure_start(
    chart: Chart,
    t: usize,
    node: NodeWords,
    marks: &mut [u8],
    numbers: &mut [u32],
) -> bool
    requires { Lent chart.bytes.now chart.states chart.arrows t marks.old numbers.old
        × OperandsBelow t node × (node.c < 65536) }
    ensures { FromOperands all_meet_plain chart.entry.bytes.now chart.entry.states t node
        marks.old marks.new
        × Starts result (chart_of chart.entry.bytes.now).arrows chart.entry.states
        (mark chart.entry.states marks.old node.a) (mark chart.entry.states marks.old node.b) node.c
        numbers.new }
{
    until_start::unhindered(true, chart.states as u32, chart, t, node, marks, numbers);
    let at = t * chart.states;
    let end = at + chart.states;
    if fill::all_are(0, &marks[at..end]) {
        return false;
    }
    let stay = Initial::Stay(node.c);
    initial::fill_numbers(stay, chart.states, node.a, node.b, marks, numbers);
    initial::clear_unsure(chart, &marks[at..end], numbers);
    true
}

// A(a until b, at least c), c above 0: no run comes, before c minutes, to a state that isn't sure.
pub fn all_at_least(chart: Chart, t: usize, node: NodeWords, marks: &mut [u8], numbers: &mut [u32])
    requires lent { Lent chart.bytes.now chart.states chart.arrows t marks.old numbers.old
        × OperandsBelow t node }
    requires c_bound { (node.c < 65536) × (0 < node.c) }
    ensures { FromOperands (all_meet (at_least node.c)) chart.entry.bytes.now chart.entry.states t
        node marks.old marks.new }
{
    if sure_start(chart, t, node, marks, numbers) {
        until_start::run(Way::Lower, chart, t, marks, numbers);
        fill::fill_limit(false, ways::TOP - node.c, chart.states, t, numbers, marks);
    }
}
