// The call count: the marks of check, found minute by minute.
#![tactic(auto)]

ghost use Rattle.call_count.specs.Count.{Counted};

use outcome::Outcome;

// Number and place of the first row that is met; on acceptance the marks of every node at every state.
pub fn count(chart: &[u8], rule: &[u8], marks: &mut [u8], scratch: &mut [u32]) -> Outcome
    ensures { Counted chart.now rule.now marks.old scratch.old
        result marks.new scratch.new }
{
    Outcome::from(judge::judge(true, chart, rule, marks, scratch))
}
