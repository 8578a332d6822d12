// The program desk_rule: a text in; desk.rul out, or what is wrong with the text.
#![tactic(auto)]

ghost use Rattle.std.specs.Prelude.{◌≡◌, ◌+◌, ◌≤◌, length};
ghost use Rattle.io.specs.Counts.{IsPrefixLen};
ghost use Rattle.typed_call.specs.Answer.{input_read, rule_room, typed, Typing};

use outcome::Outcome;
use std::fs;
use std::fs::File;
use std::io::Write;
use std::os::fd::AsRawFd;

// How many bytes of standard input are read: one more than the longest text and its newline have.
const INPUT: usize = 4098;

// The bytes of the longest rule.
const RULE: usize = 519;

// The bytes of the longest text that is printed: lines of 44, 4,099 and 4,098 bytes.
const TEXT: usize = 8241;

// What was answered, how many bytes of the rule were written, and how many of the text that is printed.
#[derive(Clone, Copy)]
struct Typed {
    outcome: Outcome,
    written: usize,
    printed: usize,
}

// The text of an input: all of it but one last newline.
fn trimmed(input: &[u8]) -> &[u8]
    ensures { result.now ≡ typed input.now }
{
    if input.len() == 0 {
        return input;
    }
    let last = input.len() - 1;
    if input[last] == b'\n' {
        return &input[..last];
    }
    input
}

// The rule of an input, or the text that is printed of its refusal.
fn answer(input: &[u8], rule: &mut [u8], out: &mut [u8]) -> Typed
    requires { (length rule.old ≡ rule_room) × (44 + length input.now + 1 + 4096 + 2 ≤ length out.old) }
    ensures { Typing input.now rule.old out.old result
        rule.new out.new }
{
    let text = trimmed(input);
    let read = call_read_rule::read_rule(text, rule);
    let outcome = read.outcome;
    let written = read.written;
    if outcome.number == 0 {
        return Typed {
            outcome,
            written,
            printed: 0,
        };
    }
    let printed = typed_listing::refuse_text(outcome, text, out);
    Typed {
        outcome,
        written,
        printed,
    }
}

// The first bytes of standard input.
fn read_input(rt: &HostRuntime, space: &mut [u8]) -> usize
    requires { length space.old ≡ input_read }
    ensures { IsPrefixLen result space.new }
{
    io::read_full(rt.stdin().as_raw_fd(), space)
}

// All of the rule goes into a new file.
fn write_new(rt: &HostRuntime, rule: &[u8]) -> std::io::Result<()> {
    fs::remove_file(rt, "desk.rul.new").ok();
    let mut file = File::create_new(rt, "desk.rul.new")?;
    file.write_all(rule)?;
    file.sync_all()
}

// The rule becomes desk.rul, which stays as it was if that fails: the new file takes its name only once it is whole.
fn save(rt: &HostRuntime, rule: &[u8]) {
    if write_new(rt, rule).is_ok() && fs::rename(rt, "desk.rul.new", "desk.rul").is_ok() {
        return;
    }
    fs::remove_file(rt, "desk.rul.new").ok();
    telling::print(&rt.stderr(), b"desk_rule: desk.rul can't be written\n");
}

fn print_usage(rt: &HostRuntime) {
    telling::print(
        &rt.stderr(),
        b"usage: desk_rule\nIt reads a rule's text from standard input and writes desk.rul here.\nOne last newline is not part of the text.\n",
    );
}

// Reads a text, and writes desk.rul or prints and tells what is wrong with the text. There is no argument but the
// program's name.
pub fn run(rt: &HostRuntime) {
    if !arguments::has_arguments(rt, 1) {
        print_usage(rt);
        return;
    }
    let mut input = [0; INPUT];
    let mut rule = [0; RULE];
    let mut text = [0; TEXT];
    let size = read_input(rt, &mut input);
    let typed = answer(&input[..size], &mut rule, &mut text);
    telling::print(&rt.stdout(), &text[..typed.printed]);
    telling::tell(&rt.stderr(), b"desk_rule", typed.outcome);
    if typed.written != 0 {
        save(rt, &rule[..typed.written]);
    }
}
