// Settling one node: its row of marks from the rows of its operands; an until by the first engine, or minute by minute.
#![tactic(auto)]

ghost use Rattle.std.specs.Prelude.{◌≡◌, ◌≤◌, ◌<◌};
ghost use Rattle.model.specs.Decide.{holds};
ghost use Rattle.chart.specs.Bytes.{chart_of};
ghost use Rattle.rule.specs.Refusals.{minutely};
ghost use Rattle.rule.specs.Formula.{bound_of, formula_at};
ghost use Rattle.fill.specs.Written.{RowWritten};
ghost use Rattle.until_start.specs.Lent.{Lent};
ghost use Rattle.operands.specs.FromOperands.{OperandsBelow, FromOperands};
ghost use Rattle.nodes.specs.Right.{numbers_for, Workable, AcceptedNode, OperandsRight};
ghost use Rattle.nodes.specs.Until.{until_met, by_minutes, UntilRead};

use arrows::Chart;
use fill::Connective;
use rule::NodeWords;
use rule::operation::Operation;

// How many numbers are worked on for n states: where the minutes of some until are counted, or of none.
pub fn numbers_for(minutely: bool, n: usize) -> usize
    requires { n ≤ 256 }
    ensures { result ≡ numbers_for minutely n }
{
    if minutely { 256 * n } else { n }
}

// An until of the first engine, which knows no exact bound, by its operation, its kind of bound and c.
fn until(chart: Chart, t: usize, node: NodeWords, marks: &mut [u8], numbers: &mut [u32])
    requires { Lent chart.bytes.now chart.states chart.arrows t marks.old numbers.old
        × OperandsBelow t node × (node.c < 65536)
        × (1 ≤ node.kind) × (node.kind ≤ 2) }
    ensures { FromOperands (until_met node.operation (bound_of node.kind node.c))
        chart.entry.bytes.now chart.entry.states t node marks.old marks.new }
{
    if node.operation == rule::SOME_UNTIL {
        if node.kind == rule::AT_MOST {
            until_once::some_at_most(chart, t, node, marks, numbers)
        } else {
            until_once::some_at_least(chart, t, node, marks, numbers)
        }
    } else if node.kind == rule::AT_MOST {
        until_start::unhindered(false, node.c + 1, chart, t, node, marks, numbers)
    } else if node.c == 0 {
        until_start::unhindered(true, chart.states as u32, chart, t, node, marks, numbers)
    } else {
        until_twice::all_at_least(chart, t, node, marks, numbers)
    }
}

// Whether an until goes by minutes.
fn by_minutes(counting: bool, node: NodeWords) -> bool
    ensures { result ≡ by_minutes counting node }
{
    counting | (node.kind == rule::EXACTLY)
}

// An until, minute by minute or by the first engine, which works on a number for each state.
fn settle_until(
    counting: bool,
    chart: Chart,
    t: usize,
    node: NodeWords,
    marks: &mut [u8],
    numbers: &mut [u32],
)
    requires { Workable counting (by_minutes counting node) chart.bytes.now chart.states chart.arrows t
        marks.old numbers.old × UntilRead counting t node }
    ensures { FromOperands (until_met node.operation (bound_of node.kind node.c))
        chart.entry.bytes.now chart.entry.states t node marks.old marks.new }
{
    if by_minutes(counting, node) {
        let all = node.operation == rule::ALL_UNTIL;
        until_minutes::until(all, chart, t, node, marks, numbers);
    } else {
        until(chart, t, node, marks, &mut numbers[..chart.states]);
    }
}

// Node t's own row, where those of its operands are right. Its frame stands once, not in each of the 64 of the tree's.
#[inline(never)]
pub fn settle_node(
    counting: bool,
    chart: Chart,
    rule: &[u8],
    t: usize,
    marks: &mut [u8],
    numbers: &mut [u32],
)
    requires workable { Workable counting (minutely counting rule.now) chart.bytes.now chart.states
        chart.arrows t marks.old numbers.old × AcceptedNode counting rule.now t }
    requires operands_right { OperandsRight chart.bytes.now chart.states rule.now t marks.old }
    ensures { RowWritten chart.entry.states t
        (holds (chart_of chart.entry.bytes.now) (formula_at rule.now t))
        marks.old marks.new }
{
    let node = rule::node_at(rule, t);
    let n = chart.states;
    match node.known_operation() {
        Operation::True => fill::fill(Connective::Yes, n, t, t, t, marks),
        Operation::Label => fill::fill_label(chart.bytes, n, node.a, t, marks),
        Operation::Not => fill::fill(Connective::Not, n, t, node.a, node.a, marks),
        Operation::And => fill::fill(Connective::And, n, t, node.a, node.b, marks),
        Operation::Or => fill::fill(Connective::Or, n, t, node.a, node.b, marks),
        Operation::SomeUntil | Operation::AllUntil => {
            settle_until(counting, chart, t, node, marks, numbers)
        }
    }
}
