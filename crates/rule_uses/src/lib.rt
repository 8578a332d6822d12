// Refusal 16 of a rule: how often each node is an operand, in one pass over the nodes.
#![tactic(auto)]

ghost use Rattle.std.specs.Prelude.{◌≡◌, true, [], ◌∷◌, ℕ, ◌+◌, ◌<◌, eqb};
ghost use Rattle.outcome.specs.Answer.{answer};
ghost use Rattle.outcome.specs.Refusal.{first};
ghost use Rattle.rule.specs.Shape.{Ordered, SmallOperands};
ghost use Rattle.rule.specs.Refusals.{names, uses_in, uses};
ghost use Rattle.rule_uses.specs.Counted.{Counted};
ghost use Rattle.rule.specs.Rows.{use_row};

use outcome::{Fault, Refusal};
use rule::NodeWords;

// The nodes that are an operand, and those that are one again.
#[derive(Clone, Copy)]
pub struct Used {
    pub once: u64,
    pub again: u64,
}

// One use more, of node v.
fn with_use(used: Used, v: usize) -> Used
    requires { v < 64 }
    ensures { (count : ℕ → ℕ) → Counted used count → Counted result (λ u. count u + names true v u) }
{
    let seen = masks::has(used.once, v);
    let once = masks::with(used.once, v);
    if seen {
        return Used {
            once: once,
            again: masks::with(used.again, v),
        };
    }
    Used {
        once: once,
        again: used.again,
    }
}

// The uses of a node's operands more.
fn with_operands(used: Used, w: NodeWords) -> Used
    requires { SmallOperands w }
    ensures { (count : ℕ → ℕ) → Counted used count → Counted result (λ u. count u + uses_in u w) }
{
    if !w.has_left() {
        return used;
    }
    let left = with_use(used, w.a);
    if !w.has_right() {
        return left;
    }
    with_use(left, w.b)
}

// The uses of all nodes.
fn used_nodes(rule: &[u8], k: usize) -> Used
    requires { Ordered rule.now k }
    ensures { Counted result (uses rule.now k) }
{
    let mut used = Used { once: 0, again: 0 };
    for t in 0..k {
        let w = rule::node_at(rule, t);
        used = with_operands(used, w);
    }
    used
}

// Node v is used exactly once.
fn used_once(used: Used, v: usize) -> bool
    requires { v < 64 }
    ensures { (count : ℕ → ℕ) → Counted used count → result ≡ eqb (count v) 1 }
{
    masks::has(used.once, v) && !masks::has(used.again, v)
}

// Row 16: the lowest node but the last that is not used exactly once.
pub fn use_refusal(rule: &[u8], k: usize) -> Result<(), Refusal>
    requires { Ordered rule.now k }
    ensures { answer result ≡ first (use_row rule.now k ∷ []) }
{
    let used = used_nodes(rule, k);
    let last = k - 1;
    for v in 0..last {
        if !used_once(used, v) {
            return Err(Fault::NotUsedOnce.at(v));
        }
    }
    Ok(())
}
