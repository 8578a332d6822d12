// The call check.
#![tactic(auto)]

ghost use Rattle.call_check.specs.Check.{Checked};

use outcome::Outcome;

// Number and place of the first row that is met; on acceptance the marks of every node at every state.
pub fn check(chart: &[u8], rule: &[u8], marks: &mut [u8], scratch: &mut [u32]) -> Outcome
    ensures { Checked chart.now rule.now marks.old scratch.old
        result marks.new scratch.new }
{
    Outcome::from(judge::judge(false, chart, rule, marks, scratch))
}
