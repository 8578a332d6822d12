// The call that writes a rule back as text.
#![tactic(auto)]

ghost use Rattle.outcome.specs.Answer.{written};
ghost use Rattle.call_write_rule.specs.Write.{Wrote};

use outcome::{Fault, Refusal, Written};

// The longest text of a rule.
const LONGEST: usize = 532;

// The text of the rule's tree, written; how many bytes it takes.
fn write(rule: &[u8], output: &mut [u8]) -> Result<usize, Refusal>
    ensures { Wrote rule.now output.old (written result) output.new }
{
    rule_refusals::rule_refusal(rule)?;
    let last = rule::node_count(rule) - 1;
    let mut text = [0u8; LONGEST];
    let size = rule_printer::print_node(rule, last, 0, &mut text);
    if output.len() < size {
        return Err(Fault::OutputShort.at(0));
    }
    Ok(append::put_word(&text[..size], 0, output))
}

// Number and place of the first row that is met; on acceptance the text of the rule's tree, and how many bytes it
// takes.
pub fn write_rule(rule: &[u8], output: &mut [u8]) -> Written
    ensures { Wrote rule.now output.old result output.new }
{
    Written::from(write(rule, output))
}
