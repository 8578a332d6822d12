// The program desk_text: a rule's file in, its text out.
#![tactic(auto)]

ghost use Rattle.std.specs.Prelude.{◌≤◌, length};
ghost use Rattle.text_call.specs.Printed.{Reports};

use desk_call::Reported;

// The bytes of the longest text, and of its line.
const LONGEST: usize = 532;

const LINE: usize = 533;

// The line that is printed of a rule, put into out.
fn report_text(rule: &[u8], out: &mut [u8]) -> Reported
    requires { 533 ≤ length out.old }
    ensures { Reports rule.now result out.old out.new }
{
    let mut text = [0; LONGEST];
    let answer = call_write_rule::write_rule(rule, &mut text);
    let outcome = answer.outcome;
    if outcome.number != 0 {
        let printed = listing::refuse(outcome, out);
        return Reported { outcome, printed };
    }
    let end = append::put_word(&text[..answer.written], 0, out);
    let printed = append::put(b'\n', end, out);
    Reported { outcome, printed }
}

fn print_usage(rt: &HostRuntime) {
    telling::print(
        &rt.stderr(),
        b"usage: desk_text\nIt reads desk.rul here, and prints the rule's text.\n",
    );
}

// Reads desk.rul as the desk program does, prints the line, and tells a refusal. There is no argument but the program's
// name.
pub fn run(rt: &HostRuntime) {
    if !arguments::has_arguments(rt, 1) {
        print_usage(rt);
        return;
    }
    let mut rule = [0; desk_call::RULE];
    let size = desk_call::read(rt, b"desk.rul", &mut rule);
    let mut line = [0; LINE];
    let reported = report_text(&rule[..size], &mut line);
    telling::print(&rt.stdout(), &line[..reported.printed]);
    telling::tell(&rt.stderr(), b"desk_text", reported.outcome);
}
