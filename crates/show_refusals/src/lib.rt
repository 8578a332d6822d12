// Refusals 60 and 61 of show: a mark that can't be shown, and scratch that is short.
#![tactic(auto)]

ghost use Rattle.std.specs.Prelude.{◌≡◌, ◌≤◌};
ghost use Rattle.outcome.specs.Answer.{answer};
ghost use Rattle.outcome.specs.Refusal.{first};
ghost use Rattle.show_refusals.specs.Fits.{table_size};
ghost use Rattle.show_refusals.specs.Rows.{is_shown_by, mark_rows, MarksLent};

use outcome::{Fault, Refusal};
use rule::NodeWords;
use rule::operation::Operation;

// How many numbers the table takes for n states.
pub fn table_size(n: usize) -> usize
    requires { n ≤ 256 }
    ensures { result ≡ table_size n }
{
    (step_table::MOST_STEPS + 1) * n
}

// A marked E-until, or an unmarked A-until bounded by "at most".
fn is_showable(w: NodeWords, marked: bool) -> bool
    ensures { result ≡ is_shown_by w marked }
{
    match Operation::try_from(w.operation) {
        Ok(Operation::SomeUntil) => marked,
        Ok(Operation::AllUntil) => w.kind == rule::AT_MOST && !marked,
        _ => false,
    }
}

// Rows 60 and 61.
#[tactic(auto, using(std::proofs::lemmas::Bool::Decides::nat_tests), unfolding(outcome::specs::Refusal::first))]
pub fn mark_refusal(
    n: usize,
    rule: &[u8],
    k: usize,
    marks: &[u8],
    scratch: &[u32],
    node: usize,
    state: usize,
) -> Result<(), Refusal>
    requires { MarksLent n rule.now k marks.now }
    ensures { answer result ≡ first (mark_rows n rule.now k marks.now scratch.now node state) }
{
    if k <= node || n <= state {
        return Err(Fault::NotShowable.at(0));
    }
    let w = rule::node_at(rule, node);
    if !is_showable(w, marks[node * n + state] == 1) {
        return Err(Fault::NotShowable.at(0));
    }
    if scratch.len() < table_size(n) {
        return Err(Fault::TableScratch.at(0));
    }
    Ok(())
}
