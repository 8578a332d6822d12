// The call show: why a state is marked, or is not.
#![tactic(auto)]

ghost use Rattle.outcome.specs.Answer.{written};
ghost use Rattle.call_show.specs.Show.{Showed};

use arrows::Chart;
use outcome::{Fault, Refusal, Written};

// The shortest run that shows why, written; how many bytes it takes.
fn show_mark(
    chart: &[u8],
    rule: &[u8],
    marks: &mut [u8],
    scratch: &mut [u32],
    node: usize,
    state: usize,
    output: &mut [u8],
) -> Result<usize, Refusal>
    ensures { Showed chart.now rule.now marks.old scratch.old node state
        output.old (written result) marks.new scratch.new output.new }
{
    judge::judge(false, chart, rule, marks, scratch)?;
    let chart = Chart {
        bytes: chart,
        states: chart::state_count(chart),
        arrows: chart::arrow_count(chart),
    };
    let k = rule::node_count(rule);
    show_refusals::mark_refusal(chart.states, rule, k, marks, scratch, node, state)?;
    let w = rule::node_at(rule, node);
    let Some(size) = show_run::write_run(chart, w, marks, state, scratch, output) else {
        return Err(Fault::NoRunFits.at(0));
    };
    Ok(size)
}

// Number and place of the first row that is met; on acceptance the shortest run that shows why, and how many bytes it
// takes.
pub fn show(
    chart: &[u8],
    rule: &[u8],
    marks: &mut [u8],
    scratch: &mut [u32],
    node: usize,
    state: usize,
    output: &mut [u8],
) -> Written
    ensures { Showed chart.now rule.now marks.old scratch.old node state
        output.old result marks.new scratch.new output.new }
{
    let shown = show_mark(chart, rule, marks, scratch, node, state, output);
    Written::from(shown)
}
