// Settling a node of a rule's tree: its operands first, whose numbers are lower, then its own row of marks; untils by the
// first engine, or minute by minute.
#![tactic(auto)]

ghost use Rattle.rule.specs.Refusals.{minutely};
ghost use Rattle.nodes.specs.Right.{Workable, AcceptedNode};
ghost use Rattle.settle.specs.Settled.{Settled};

use arrows::Chart;
use rule::operation::Operation;

pub fn settle(
    counting: bool,
    chart: Chart,
    rule: &[u8],
    t: usize,
    marks: &mut [u8],
    numbers: &mut [u32],
)
    requires { Workable counting (minutely counting rule.now) chart.bytes.now chart.states
        chart.arrows t marks.old numbers.old × AcceptedNode counting rule.now t }
    ensures { Settled chart.entry.bytes.now chart.entry.states rule.now t marks.old marks.new }
{
    let node = rule::node_at(rule, t);
    match node.known_operation() {
        Operation::True | Operation::Label => {}
        Operation::Not => settle(counting, chart, rule, node.a, marks, numbers),
        Operation::And | Operation::Or | Operation::SomeUntil | Operation::AllUntil => {
            settle(counting, chart, rule, node.a, marks, numbers);
            settle(counting, chart, rule, node.b, marks, numbers);
        }
    }
    nodes::settle_node(counting, chart, rule, t, marks, numbers);
}
