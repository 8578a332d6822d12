// A chart and a rule judged: the table of refusals, then every node settled, by the first engine or minute by minute.
#![tactic(auto)]

ghost use Rattle.std.specs.Prelude.{◌≡◌, [], ◌∷◌, ◌≤◌, length};
ghost use Rattle.outcome.specs.Answer.{answer};
ghost use Rattle.outcome.specs.Refusal.{first};
ghost use Rattle.rule.specs.Refusals.{rule_refusal};
ghost use Rattle.loops.specs.Refusal.{loop_row};
ghost use Rattle.judge.specs.Judge.{own_rows, Promised};
ghost use Rattle.judge.specs.Judged.{input_table, Judgeable, Judged};

use arrows::Chart;
use outcome::Refusal;

// Row 63, where every until is counted.
fn own_refusal(counting: bool, rule: &[u8]) -> Result<(), Refusal>
    requires { (rule_refusal rule.now).number ≡ 0 }
    ensures { answer result ≡ first (own_rows counting rule.now) }
{
    if counting {
        return rule_refusals::bound_refusal(rule);
    }
    Ok(())
}

// Rows 1 to 18, and 63.
fn input_refusal(
    counting: bool,
    chart: &[u8],
    rule: &[u8],
    marks: &[u8],
    scratch: &[u32],
) -> Result<(), Refusal>
    ensures { answer result ≡ first (input_table counting chart.now rule.now
        marks.now scratch.now) }
{
    chart_refusals::chart_refusal(chart)?;
    rule_refusals::rule_refusal(rule)?;
    own_refusal(counting, rule)?;
    let n = chart::state_count(chart);
    let k = rule::node_count(rule);
    let minutely = rule_refusals::minutely(counting, rule);
    let size = room::scratch_size(minutely, n);
    room::room_refusal(n, k, size, marks, scratch)
}

// Row 19, on the first n numbers.
fn loop_row(chart: Chart, numbers: &mut [u32]) -> Result<(), Refusal>
    requires { chart.states ≤ length numbers.old }
    ensures { answer result ≡ first (loop_row chart.entry.bytes.now ∷ []) }
{
    loops::loop_refusal(chart, &mut numbers[..chart.states])
}

// Row 19; if it is not met every node is settled, from the last one down, by the hints that row 19 leaves.
fn judged(
    counting: bool,
    chart: Chart,
    rule: &[u8],
    k: usize,
    marks: &mut [u8],
    numbers: &mut [u32],
) -> Result<(), Refusal>
    requires { Judgeable counting chart.bytes.now chart.states chart.arrows rule.now k marks.old numbers.old }
    ensures { Judged chart.entry.bytes.now chart.entry.states rule.now (answer result) marks.old marks.new }
{
    loop_row(chart, numbers)?;
    let last = k - 1;
    settle::settle(counting, chart, rule, last, marks, numbers);
    Ok(())
}

// Number and place of the first row that is met; on acceptance the marks of every node at every state.
pub fn judge(
    counting: bool,
    chart: &[u8],
    rule: &[u8],
    marks: &mut [u8],
    scratch: &mut [u32],
) -> Result<(), Refusal>
    ensures { Promised counting chart.now rule.now marks.old scratch.old
        (answer result) marks.new scratch.new }
{
    input_refusal(counting, chart, rule, marks, scratch)?;
    let chart = Chart {
        bytes: chart,
        states: chart::state_count(chart),
        arrows: chart::arrow_count(chart),
    };
    let k = rule::node_count(rule);
    let minutely = rule_refusals::minutely(counting, rule);
    let used = nodes::numbers_for(minutely, chart.states);
    let tested = judged(counting, chart, rule, k, marks, &mut scratch[..used]);
    let zeros = room::scratch_size(minutely, chart.states);
    loops::clear(&mut scratch[..zeros]);
    tested
}
