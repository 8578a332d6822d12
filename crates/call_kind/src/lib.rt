// The call kind of rule.
#![tactic(auto)]

ghost use Rattle.std.specs.Prelude.{◌≡◌, ◌<◌};
ghost use Rattle.tctl.specs.Kind.{all_runs, some_run, is_of};
ghost use Rattle.rule.specs.Bytes.{node_count};
ghost use Rattle.rule.specs.Refusals.{rule_refusal};
ghost use Rattle.rule.specs.Formula.{formula_at};
ghost use Rattle.call_kind.specs.Kind.{kind_for, Answered};

use outcome::Outcome;

#[derive(Clone, Copy)]
pub enum Kind {
    AllRuns,
    SomeRun,
    Both,
    Neither,
}

#[derive(Clone, Copy)]
pub struct KindAnswer {
    pub outcome: Outcome,
    pub kind: Kind,
}

// The test of the all-runs kind at node t.
#[cycle(all_runs_some_run)]
fn all_runs(rule: &[u8], t: usize) -> bool
    requires { ((rule_refusal rule.now).number ≡ 0) × (t < node_count rule.now) }
    ensures { result ≡ is_of all_runs (formula_at rule.now t) }
{
    let node = rule::node_at(rule, t);
    if node.operation < rule::NOT {
        return true;
    }
    if node.operation == rule::NOT {
        return some_run(rule, node.a);
    }
    if node.operation == rule::SOME_UNTIL {
        return false;
    }
    all_runs(rule, node.a) && all_runs(rule, node.b)
}

// The test of the some-run kind at node t.
#[cycle(all_runs_some_run)]
fn some_run(rule: &[u8], t: usize) -> bool
    requires { ((rule_refusal rule.now).number ≡ 0) × (t < node_count rule.now) }
    ensures { result ≡ is_of some_run (formula_at rule.now t) }
{
    let node = rule::node_at(rule, t);
    if node.operation < rule::NOT {
        return true;
    }
    if node.operation == rule::NOT {
        return all_runs(rule, node.a);
    }
    if node.operation == rule::ALL_UNTIL {
        return false;
    }
    some_run(rule, node.a) && some_run(rule, node.b)
}

fn kind_for(all: bool, some: bool) -> Kind
    ensures { result ≡ kind_for all some }
{
    match (all, some) {
        (true, true) => Kind::Both,
        (true, false) => Kind::AllRuns,
        (false, true) => Kind::SomeRun,
        (false, false) => Kind::Neither,
    }
}

// Number and place as the rule's checks give them, and the kind of its last node; neither on a refusal.
pub fn kind_of_rule(rule: &[u8]) -> KindAnswer
    ensures { Answered rule.now result }
{
    if let Err(own) = rule_refusals::rule_refusal(rule) {
        return KindAnswer {
            outcome: Outcome::from(own),
            kind: Kind::Neither,
        };
    }
    let last = rule::node_count(rule) - 1;
    let kind = kind_for(all_runs(rule, last), some_run(rule, last));
    KindAnswer {
        outcome: outcome::accepted(),
        kind,
    }
}
