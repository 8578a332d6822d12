// The program desk_why: two numbers and two files in, one text out.
#![tactic(auto)]

ghost use Rattle.std.specs.Prelude.{◌*◌, ◌≤◌, length};
ghost use Rattle.why_call.specs.Why.{Reports};

use desk_call::Reported;
use std::env::Env;

// Marks and scratch for 256 states and 64 nodes, and room for the longest run.
const MARKS: usize = 16384;

const SCRATCH: usize = 65792;

const RUN: usize = 1542;

// The bytes of the longest text: 257 lines of 52.
const TEXT: usize = 13364;

// Room for any argument that Linux passes.
const ARGUMENT: usize = 131072;

// The text that is printed of a chart, a rule, a node and a state, put into out.
fn report_why(chart: &[u8], rule: &[u8], node: usize, state: usize, out: &mut [u8]) -> Reported
    requires { 257 * 52 ≤ length out.old }
    ensures { Reports chart.now rule.now node state result out.old out.new }
{
    let mut marks = [0; MARKS];
    let mut scratch = [0; SCRATCH];
    let mut run = [0; RUN];
    let answer = call_show::show(chart, rule, &mut marks, &mut scratch, node, state, &mut run);
    let outcome = answer.outcome;
    if outcome.number != 0 {
        let printed = listing::refuse(outcome, out);
        return Reported { outcome, printed };
    }
    let written = answer.written;
    let words = rule::node_at(rule, node);
    let all = words.operation == rule::ALL_UNTIL;
    let printed = run_listing::list_run(&run[..written], all, words.c, out);
    Reported { outcome, printed }
}

// Reads desk.cht and desk.rul as the desk program does, prints the report, and tells a refusal.
fn print_why(rt: &HostRuntime, node: usize, state: usize) {
    let mut chart = [0; desk_call::CHART];
    let mut rule = [0; desk_call::RULE];
    let chart_size = desk_call::read(rt, b"desk.cht", &mut chart);
    let rule_size = desk_call::read(rt, b"desk.rul", &mut rule);
    let mut text = [0; TEXT];
    let reported = report_why(
        &chart[..chart_size],
        &rule[..rule_size],
        node,
        state,
        &mut text,
    );
    telling::print(&rt.stdout(), &text[..reported.printed]);
    telling::tell(&rt.stderr(), b"desk_why", reported.outcome);
}

fn print_usage(rt: &HostRuntime) {
    telling::print(
        &rt.stderr(),
        b"usage: desk_why NODE STATE\nIt reads desk.cht and desk.rul here, and takes both numbers in decimal.\n",
    );
}

// Argument i as a number.
fn read_argument(rt: &HostRuntime, i: usize) -> Option<usize> {
    let mut text = [0; ARGUMENT];
    let Ok(size) = rt.arg(i, &mut text) else {
        return None;
    };
    arguments::decimal_value(&text[..size])
}

// Two arguments, the program's own name before them.
pub fn run(rt: &HostRuntime) {
    if arguments::has_arguments(rt, 3)
        && let Some(node) = read_argument(rt, 1)
        && let Some(state) = read_argument(rt, 2)
    {
        print_why(rt, node, state);
    } else {
        print_usage(rt);
    }
}
