// Refusals 1 to 9 of a chart.
#![tactic(auto)]

ghost use Rattle.std.specs.Prelude.{◌≡◌, List, [], ◌∷◌, ℕ, ◌≤◌, length, MatchResult};
ghost use Rattle.outcome.specs.Answer.{told, answer};
ghost use Rattle.outcome.specs.Refusal.{success, first, rows};
ghost use Rattle.chart.specs.Shape.{Shape};
ghost use Rattle.chart.specs.Refusals.{chart_table, chart_refusal, names_no_state, empty_slot};
ghost use Rattle.chart.specs.Rows.{arrow_rows, state_row, body_rows};
ghost use Rattle.chart_refusals.specs.Leaves.{Leaves};

use chart::ArrowWords;
use outcome::{Fault, Refusal};

// Rows 4 to 6.
// Each return is the row whose test led there, the tests before it having failed.
#[tactic(auto, using(std::proofs::lemmas::Bool::Decides::nat_tests), unfolding(outcome::specs::Refusal::first, chart::specs::Refusals::chart_table))]
fn size_refusal(chart: &[u8]) -> Result<(), Refusal>
    requires { 9 ≤ length chart.now }
    ensures { answer result ≡ first (rows 3 3 (chart_table chart.now)) }
{
    let n = chart::state_count(chart);
    if !(1..=256).contains(&n) {
        return Err(Fault::StateCount.at(0));
    }
    let m = chart::arrow_count(chart);
    if !(1..=2048).contains(&m) {
        return Err(Fault::ArrowCount.at(0));
    }
    if chart.len() != 9 + 2 * n + 8 * m {
        return Err(Fault::ChartLength.at(0));
    }
    Ok(())
}

// The fault of row 7.
fn names_no_state(n: usize, a: ArrowWords) -> bool
    ensures { result ≡ names_no_state n a }
{
    n <= a.start || n <= a.end
}

// The fault of row 8.
fn empty_slot(a: ArrowWords) -> bool
    ensures { result ≡ empty_slot a }
{
    a.most < a.fewest || a.fewest == chart::NO_END
}

// Rows 7 and 8 in one pass, and which states an arrow leaves: row 7 of any arrow stands before row 8.
fn seen_arrows(chart: &[u8], n: usize, m: usize) -> Result<[u64; 4], Refusal>
    requires { Shape chart.now n m }
    ensures { MatchResult result
        (λ left. (success ≡ first (arrow_rows chart.now n m)) × Leaves chart.now m left)
        (λ own. told own ≡ first (arrow_rows chart.now n m)) }
{
    let mut empty = None;
    let mut left = [0u64; 4];
    for i in 0..m {
        let a = chart::arrow_at(chart, n, i);
        if names_no_state(n, a) {
            return Err(Fault::NoSuchState.at(i));
        }
        empty = empty.or(empty_slot(a).then_some(i));
        let q = a.start / 64;
        left[q] = masks::with(left[q], a.start % 64);
    }
    match empty {
        Some(i) => Err(Fault::EmptySlot.at(i)),
        None => Ok(left),
    }
}

// Row 9.
fn state_refusal(left: [u64; 4], n: usize) -> Result<(), Refusal>
    requires { n ≤ 256 }
    ensures { (s : List ℕ) (m : ℕ) → Leaves s m left → answer result ≡ first (state_row s n m ∷ []) }
{
    for v in 0..n {
        if !masks::has(left[v / 64], v % 64) {
            return Err(Fault::NoArrowOut.at(v));
        }
    }
    Ok(())
}

// Rows 7 to 9.
#[tactic(auto, unfolding(outcome::specs::Refusal::first))]
fn body_refusal(chart: &[u8], n: usize, m: usize) -> Result<(), Refusal>
    requires { Shape chart.now n m }
    ensures { answer result ≡ first (body_rows chart.now n m) }
{
    let left = seen_arrows(chart, n, m)?;
    state_refusal(left, n)
}

// Number and place of the first row of the table that is met.
#[tactic(auto, unfolding(outcome::specs::Refusal::first, chart::specs::Refusals::chart_table))]
pub fn chart_refusal(chart: &[u8]) -> Result<(), Refusal>
    ensures { answer result ≡ chart_refusal chart.now }
{
    head::head_refusal(
        chart,
        9,
        Fault::ChartShort,
        Fault::ChartVersion,
        Fault::ChartStated,
    )?;
    size_refusal(chart)?;
    let n = chart::state_count(chart);
    let m = chart::arrow_count(chart);
    body_refusal(chart, n, m)
}
