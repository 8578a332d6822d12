// The calls that only Rattle code can make, run and printed: a row as a part of a table, and a chart reader that is
// lent to `next`. What is printed is compared with what the separately written program prints.
#![tactic(auto)]

ghost use Rattle.std.specs.Prelude.{◌≡◌};
ghost use Rattle.desk_test_calls.specs.Turned.{turned};

use call_row::Choice;
use chart::ArrowWords;
use std::io::Print;

// What a reader hands out, and what it hands out after that.
#[derive(Clone, Copy)]
pub struct Turned {
    pub first: Option<ArrowWords>,
    pub following: Option<ArrowWords>,
}

// A reader of these bytes at this number, moved on by one.
fn turn(chart: &[u8], number: usize) -> Turned
    ensures { result ≡ turned chart.now number }
{
    let mut r = call_reader::new(chart, number);
    let first = call_reader::next(&mut r);
    let following = call_reader::peek(r);
    Turned { first, following }
}

fn print(rt: &HostRuntime, text: &[u8]) {
    telling::print(&rt.stdout(), text);
}

fn print_word(rt: &HostRuntime, word: u64) {
    print!(rt; " {word}").ok();
}

fn print_handed(rt: &HostRuntime, handed: Option<ArrowWords>) {
    match handed {
        Some(a) => {
            print_word(rt, a.start as u64);
            print_word(rt, a.end as u64);
            print_word(rt, a.fewest as u64);
            print_word(rt, a.most as u64);
        }
        None => print(rt, b" finished"),
    }
}

// The line of one number; whether the reader says finished there.
fn print_turn(rt: &HostRuntime, chart: &[u8], number: usize) -> bool {
    let t = turn(chart, number);
    print!(rt; "{number}:").ok();
    print_handed(rt, t.first);
    print(rt, b", then");
    print_handed(rt, t.following);
    print(rt, b"\n");
    t.first.is_none()
}

// A line for each number, up to the first at which the reader says finished. No chart has more than 2,048 arrows.
fn print_arrows(rt: &HostRuntime, chart: &[u8]) {
    for number in 0..=2048 {
        if print_turn(rt, chart, number) {
            return;
        }
    }
}

fn print_bytes(rt: &HostRuntime, bytes: &[u8]) {
    for byte in bytes {
        print_word(rt, u64::from(*byte));
    }
}

// The bytes of the row that is asked for: the choice in byte 0 (0: overview), n in bytes 1 to 2, t in 3 to 4.
fn print_row<'a>(rt: &HostRuntime, overview: &'a [u8], detail: &'a [u8], ask: &[u8; 5]) {
    let choice = if ask[0] == 0 {
        Choice::Overview
    } else {
        Choice::Detail
    };
    let n = words::be16(ask, 1);
    let t = words::be16(ask, 3);
    let row = call_row::row(overview, detail, choice, n as usize, t as usize);
    print(rt, b"row");
    print_bytes(rt, row);
    print(rt, b"\n");
}

fn main(rt: HostRuntime) {
    let mut chart = [0; desk_call::CHART];
    let mut rule = [0; desk_call::RULE];
    let mut ask = [0; 5];
    let chart_size = desk_call::read(&rt, b"desk.cht", &mut chart);
    let rule_size = desk_call::read(&rt, b"desk.rul", &mut rule);
    desk_call::read(&rt, b"row.ask", &mut ask);
    print_row(&rt, &chart[..chart_size], &rule[..rule_size], &ask);
    print_arrows(&rt, &chart[..chart_size]);
}
