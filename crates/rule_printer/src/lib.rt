// A rule written back as text, node by node down its tree, into a lent buffer.
#![tactic(auto)]

ghost use Rattle.std.specs.Prelude.{◌≡◌, ◌<◌};
ghost use Rattle.append.specs.Piece.{Room, Appended};
ghost use Rattle.rule.specs.Bytes.{node_count};
ghost use Rattle.rule.specs.Refusals.{rule_refusal};
ghost use Rattle.rule.specs.Formula.{bound_of, formula_at};
ghost use Rattle.rule_grammar.specs.Text.{until_sign, text};
ghost use Rattle.rule_printer.specs.Parts.{leaf_text, opening_text, kind_byte, sign_text, between_text};

// A node without operands.
#[tactic(auto, unfolding(crate::specs::Parts::leaf_text))]
fn put_leaf(operation: u8, a: usize, at: usize, out: &mut [u8]) -> usize
    requires { Room at (leaf_text operation a) out.old }
    ensures { Appended at (leaf_text operation a) result out.old out.new }
{
    if operation == rule::TRUE {
        return append::put_word(b"true", at, out);
    }
    let lettered = append::put(b'L', at, out);
    decimal::put_number(a, lettered, out)
}

// What stands before the first operand of an operation that has one; each word by itself, so that its length is known.
#[tactic(auto, unfolding(crate::specs::Parts::opening_text))]
fn put_opening(operation: u8, at: usize, out: &mut [u8]) -> usize
    requires { Room at (opening_text operation) out.old }
    ensures { Appended at (opening_text operation) result out.old out.new }
{
    match operation {
        rule::NOT => append::put_word(b"!", at, out),
        rule::SOME_UNTIL => append::put_word(b"E(", at, out),
        ..=rule::OR => append::put_word(b"(", at, out),
        _ => append::put_word(b"A(", at, out),
    }
}

// The first byte of <=, >= or ==, by the kind of the bound.
fn kind_byte(kind: u8) -> u8
    ensures { result ≡ kind_byte kind }
{
    match kind {
        rule::AT_MOST => b'<',
        rule::AT_LEAST => b'>',
        _ => b'=',
    }
}

fn put_until(kind: u8, c: usize, at: usize, out: &mut [u8]) -> usize
    requires { Room at (until_sign (bound_of kind c)) out.old }
    ensures { Appended at (until_sign (bound_of kind c)) result out.old out.new }
{
    let awaited = append::put(b'U', at, out);
    let compared = append::put(kind_byte(kind), awaited, out);
    let equalled = append::put(b'=', compared, out);
    decimal::put_number(c, equalled, out)
}

#[tactic(auto, unfolding(crate::specs::Parts::sign_text))]
fn put_sign(operation: u8, kind: u8, c: usize, at: usize, out: &mut [u8]) -> usize
    requires { Room at (sign_text operation kind c) out.old }
    ensures { Appended at (sign_text operation kind c) result out.old out.new }
{
    if rule::OR < operation {
        return put_until(kind, c, at, out);
    }
    let sign = if operation == rule::AND { b'&' } else { b'|' };
    append::put(sign, at, out)
}

// The sign, with its spaces.
#[tactic(auto, unfolding(crate::specs::Parts::between_text))]
fn put_between(operation: u8, kind: u8, c: usize, at: usize, out: &mut [u8]) -> usize
    requires { Room at (between_text operation kind c) out.old }
    ensures { Appended at (between_text operation kind c) result out.old out.new }
{
    let spaced = append::put(b' ', at, out);
    let signed = put_sign(operation, kind, c, spaced, out);
    append::put(b' ', signed, out)
}

// The text of node t of an accepted rule.
pub fn print_node(rule: &[u8], t: usize, at: usize, out: &mut [u8]) -> usize
    requires { ((rule_refusal rule.now).number ≡ 0) × (t < node_count rule.now) ×
        Room at (text (formula_at rule.now t)) out.old }
    ensures { Appended at (text (formula_at rule.now t)) result out.old out.new }
{
    let node = rule::node_at(rule, t);
    if node.operation < rule::NOT {
        return put_leaf(node.operation, node.a, at, out);
    }
    let opened = put_opening(node.operation, at, out);
    let first = print_node(rule, node.a, opened, out);
    if node.operation == rule::NOT {
        return first;
    }
    let signed = put_between(node.operation, node.kind, node.c as usize, first, out);
    let second = print_node(rule, node.b, signed, out);
    append::put(b')', second, out)
}
