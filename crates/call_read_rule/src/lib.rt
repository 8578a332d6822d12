// The call that reads a rule typed as text.
#![tactic(auto)]

ghost use Rattle.std.specs.Prelude.{◌≡◌, ◌++◌, ◌*◌, ◌≤◌, length, take};
ghost use Rattle.append.specs.Piece.{Room, Appended};
ghost use Rattle.outcome.specs.Answer.{written};
ghost use Rattle.rule_grammar.specs.Machine.{judge};
ghost use Rattle.rule_bytes.specs.RuleBytes.{head_bytes};
ghost use Rattle.rule_parser.specs.Read.{Reads};
ghost use Rattle.call_read_rule.specs.Read.{ReadAs};

use outcome::{Fault, Refusal, Written};

// The longest text that is read, and the most nodes that a rule has.
const LONGEST: usize = 4096;

const NODES: usize = 64;

// A text of so many bytes is read with a small stack.
const SHORT: usize = 64;

// How many nodes a text has, or its fault; the stack has a byte for each of its bytes.
fn read_text(text: &[u8], nodes: &mut [u8]) -> Result<usize, usize>
    requires { (length text.now ≤ 4096) × (length nodes.old ≡ 512) }
    ensures { Reads text.now (judge text.now) result nodes.new }
{
    if text.len() <= SHORT {
        let mut stack = [0u8; SHORT];
        return rule_parser::read_nodes(text, &mut stack, nodes);
    }
    let mut stack = [0u8; LONGEST];
    rule_parser::read_nodes(text, &mut stack, nodes)
}

// The rule of the first k nodes.
fn put_rule(k: usize, nodes: &[u8], output: &mut [u8]) -> usize
    requires { (k ≤ 64) × (length nodes.now ≡ 512) × Room 0 (head_bytes k ++ take (8 * k) nodes.now) output.old }
    ensures { Appended 0 (head_bytes k ++ take (8 * k) nodes.now) result
        output.old output.new }
{
    let size = 8 * k;
    let versioned = append::put(1, 0, output);
    let lengthened = append::put_be32((7 + size) as u32, versioned, output);
    let headed = append::put_be16(k as u32, lengthened, output);
    append::put_word(&nodes[..size], headed, output)
}

// The rule's bytes, written; how many.
fn read(text: &[u8], output: &mut [u8]) -> Result<usize, Refusal>
    ensures { ReadAs text.now output.old (written result) output.new }
{
    if LONGEST < text.len() {
        return Err(Fault::TooMuch.at(0));
    }
    let mut nodes = [0u8; 8 * NODES];
    let count = match read_text(text, &mut nodes) {
        Ok(count) => count,
        Err(place) => return Err(Fault::NotAText.at(place)),
    };
    if NODES < count {
        return Err(Fault::TooMuch.at(0));
    }
    if output.len() < 7 + 8 * count {
        return Err(Fault::OutputShort.at(0));
    }
    Ok(put_rule(count, &nodes, output))
}

// Number and place of the first row that is met; on acceptance the rule's bytes, and how many.
pub fn read_rule(text: &[u8], output: &mut [u8]) -> Written
    ensures { ReadAs text.now output.old result output.new }
{
    Written::from(read(text, output))
}
