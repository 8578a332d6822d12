// Writes desk.rul from a text, thin over a proved answer; its test types a rule that stops early.
#![tactic(auto)]

fn main(rt: HostRuntime) {
    typed_call::run(&rt);
}
