// The desk program; its test runs it on the chart Short.
#![tactic(auto)]

fn main(rt: HostRuntime) {
    desk_call::run(&rt);
}
