// Shows why, thin over a proved writer; its test asks of the rule at state 0 of the chart Short.
#![tactic(auto)]

fn main(rt: HostRuntime) {
    why_call::run(&rt);
}
