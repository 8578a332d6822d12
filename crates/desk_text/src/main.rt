// Prints desk.rul as text, thin over a proved writer; its test has the rule of desk's.
#![tactic(auto)]

fn main(rt: HostRuntime) {
    text_call::run(&rt);
}
