// The desk program: two files in, one text out.
#![tactic(auto)]

ghost use Rattle.std.specs.Prelude.{◌+◌, ◌*◌, ◌≤◌, length, take};
ghost use Rattle.io.specs.Counts.{IsPrefixLen};
ghost use Rattle.desk_call.specs.Files.{Files};
ghost use Rattle.desk_call.specs.Printed.{Reports};

use outcome::Outcome;
use std::fs::File;
use std::os::fd::AsRawFd;

// How many bytes are read of a chart's file and of a rule's.
pub const CHART: usize = 16906;

pub const RULE: usize = 520;

// Marks and scratch for 256 states and 64 nodes.
const MARKS: usize = 16384;

const SCRATCH: usize = 65536;

// The bytes of the longest text: 64 lines of 260 after a first line of 20.
const TEXT: usize = 16660;

// The first bytes of a file, as many as there is room for. One that can't be opened counts as empty.
pub fn read(rt: &HostRuntime, name: &[u8], space: &mut [u8]) -> usize
    ensures { IsPrefixLen result space.new }
{
    let Ok(name) = str::from_utf8(name) else {
        return 0;
    };
    let Ok(file) = File::open(rt, name) else {
        return 0;
    };
    io::read_full(file.as_raw_fd(), space)
}

// What a call answered, and how many bytes are printed of it.
#[derive(Clone, Copy)]
pub struct Reported {
    pub outcome: Outcome,
    pub printed: usize,
}

// The text that is printed of a chart and a rule, put into out.
fn report(chart: &[u8], rule: &[u8], out: &mut [u8]) -> Reported
    requires { 20 + 64 * 260 ≤ length out.old }
    ensures { Reports chart.now rule.now result out.old out.new }
{
    let mut marks = [0; MARKS];
    let mut scratch = [0; SCRATCH];
    let outcome = call_check::check(chart, rule, &mut marks, &mut scratch);
    if outcome.number != 0 {
        let printed = listing::refuse(outcome, out);
        return Reported { outcome, printed };
    }
    let n = chart::state_count(chart);
    let k = rule::node_count(rule);
    let printed = listing::list(n, k, &marks, out);
    Reported { outcome, printed }
}

// The same of two files, of which i bytes of the chart and j of the rule were read.
fn report_files(chart: &[u8], i: usize, rule: &[u8], j: usize, out: &mut [u8]) -> Reported
    requires { Files chart.now i rule.now j × (20 + 64 * 260 ≤ length out.old) }
    ensures { Reports (take i chart.now) (take j rule.now) result
        out.old out.new }
{
    report(&chart[..i], &rule[..j], out)
}

// Reads desk.cht and desk.rul, prints the report, and tells a refusal. A file longer than any accepted is read for one
// byte more than the longest, and so refused.
pub fn run(rt: &HostRuntime) {
    let mut chart = [0; CHART];
    let mut rule = [0; RULE];
    let chart_size = read(rt, b"desk.cht", &mut chart);
    let rule_size = read(rt, b"desk.rul", &mut rule);
    let mut text = [0; TEXT];
    let reported = report_files(&chart, chart_size, &rule, rule_size, &mut text);
    let printed = reported.printed;
    telling::print(&rt.stdout(), &text[..printed]);
    let outcome = reported.outcome;
    telling::tell(&rt.stderr(), b"desk", outcome);
}
