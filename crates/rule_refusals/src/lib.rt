// Refusals 10 to 16 of a rule, and 63.
#![tactic(auto)]

ghost use Rattle.std.specs.Prelude.{◌≡◌, [], ◌∷◌, ◌≤◌, length};
ghost use Rattle.outcome.specs.Answer.{number_of, answer};
ghost use Rattle.outcome.specs.Refusal.{first, rows};
ghost use Rattle.rule.specs.Shape.{Shape};
ghost use Rattle.rule.specs.Refusals.{rule_table, rule_refusal, wrong_bound, malformed, not_lower, bound_row};
ghost use Rattle.rule.specs.Refusals.{has_exact, minutely};
ghost use Rattle.rule_refusals.specs.Bound.{has_bound};
ghost use Rattle.rule.specs.Rows.{offends, node_row, node_rows};

use outcome::{Fault, Refusal};
use rule::NodeWords;
use rule::operation::Operation;

// Row 13.
#[tactic(auto, using(std::proofs::lemmas::Bool::Decides::nat_tests), unfolding(outcome::specs::Refusal::first, rule::specs::Refusals::rule_table))]
fn size_refusal(rule: &[u8]) -> Result<(), Refusal>
    requires { 7 ≤ length rule.now }
    ensures { answer result ≡ first (rows 3 1 (rule_table rule.now)) }
{
    let k = rule::node_count(rule);
    if !(1..=64).contains(&k) || rule.len() != 7 + 8 * k {
        return Err(Fault::NodeCount.at(0));
    }
    Ok(())
}

// The fault of an until's kind and c: "exactly" goes up to 255.
#[tactic(auto, using(std::proofs::lemmas::Bool::Decides::nat_tests), unfolding(rule::specs::Refusals::wrong_bound))]
fn wrong_bound(w: NodeWords) -> bool
    ensures { result ≡ wrong_bound w }
{
    if w.kind == rule::EXACTLY {
        return w.c > rule::LONGEST;
    }
    w.kind < rule::AT_MOST || rule::AT_LEAST < w.kind
}

// A field of a bound is not 0.
fn has_bound(w: NodeWords) -> bool
    ensures { result ≡ has_bound w }
{
    w.kind != rule::NO_BOUND || w.c != 0
}

// The fault of row 14.
#[tactic(auto, unfolding(rule::specs::Form::form_of, rule::specs::Refusals::malformed, rule::specs::Refusals::wrong_kind, rule::specs::Refusals::wrong_a))]
fn is_malformed(w: NodeWords) -> bool
    ensures { result ≡ malformed w }
{
    let Ok(operation) = Operation::try_from(w.operation) else {
        return true;
    };
    match operation {
        Operation::True => has_bound(w) || w.b != 0 || w.a != 0,
        Operation::Label => has_bound(w) || w.b != 0 || rule::LAST_LABEL < w.a,
        Operation::Not => has_bound(w) || w.b != 0,
        Operation::And | Operation::Or => has_bound(w),
        Operation::SomeUntil | Operation::AllUntil => wrong_bound(w),
    }
}

// The fault of row 15.
#[tactic(auto, unfolding(rule::specs::Refusals::not_lower))]
fn is_not_lower(w: NodeWords, t: usize) -> bool
    ensures { result ≡ not_lower t w }
{
    w.has_left() && t <= w.a || w.has_right() && t <= w.b
}

// The fault of row 14, of row 15, or of row 63.
fn offending(fault: Fault, w: NodeWords, t: usize) -> bool
    ensures { result ≡ offends (number_of fault) t w }
{
    match fault {
        Fault::Malformed => is_malformed(w),
        Fault::NotLower => is_not_lower(w, t),
        _ => rule::LONGEST < w.c,
    }
}

// Row 14, 15 or 63: the lowest node with its fault. A loop for each row, that asks nothing but its own condition.
#[inline(always)]
fn node_refusal(fault: Fault, rule: &[u8], k: usize) -> Result<(), Refusal>
    requires { Shape rule.now k }
    ensures { answer result ≡ first (node_row (number_of fault) rule.now k ∷ []) }
{
    for t in 0..k {
        let w = rule::node_at(rule, t);
        if offending(fault, w, t) {
            return Err(fault.at(t));
        }
    }
    Ok(())
}

// Rows 14 to 16.
#[tactic(auto, using(rule::proofs::Passed::order_passed), unfolding(outcome::specs::Refusal::first))]
fn body_refusal(rule: &[u8], k: usize) -> Result<(), Refusal>
    requires { Shape rule.now k }
    ensures { answer result ≡ first (node_rows rule.now k) }
{
    node_refusal(Fault::Malformed, rule, k)?;
    node_refusal(Fault::NotLower, rule, k)?;
    rule_uses::use_refusal(rule, k)
}

// Number and place of the first row of the table that is met.
#[tactic(auto, using(rule::proofs::Passed::size_passed, rule::proofs::Passed::body_last), unfolding(outcome::specs::Refusal::first, rule::specs::Refusals::rule_table))]
pub fn rule_refusal(rule: &[u8]) -> Result<(), Refusal>
    ensures { answer result ≡ rule_refusal rule.now }
{
    head::head_refusal(
        rule,
        7,
        Fault::RuleShort,
        Fault::RuleVersion,
        Fault::RuleStated,
    )?;
    size_refusal(rule)?;
    let k = rule::node_count(rule);
    body_refusal(rule, k)
}

// Row 63, of a rule that passes rows 10 to 16.
pub fn bound_refusal(rule: &[u8]) -> Result<(), Refusal>
    requires { (rule_refusal rule.now).number ≡ 0 }
    ensures { answer result ≡ first (bound_row rule.now ∷ []) }
{
    let k = rule::node_count(rule);
    node_refusal(Fault::LongBound, rule, k)
}

// Whether a node of a rule that passes rows 10 to 16 has an exact bound.
fn has_exact(rule: &[u8]) -> bool
    requires { (rule_refusal rule.now).number ≡ 0 }
    ensures { result ≡ has_exact rule.now }
{
    let k = rule::node_count(rule);
    for t in 0..k {
        if rule::node_at(rule, t).kind == rule::EXACTLY {
            return true;
        }
    }
    false
}

// Whether minutes are counted: of every until, or of the exact ones that a rule has which passes rows 10 to 16.
pub fn minutely(counting: bool, rule: &[u8]) -> bool
    requires { (rule_refusal rule.now).number ≡ 0 }
    ensures { result ≡ minutely counting rule.now }
{
    counting || has_exact(rule)
}
