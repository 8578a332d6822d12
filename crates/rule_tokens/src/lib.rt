// The tokens of a rule's text, each read at its place.
#![tactic(auto)]

ghost use Rattle.std.specs.Prelude.{◌≡◌, ◌≤◌, length};
ghost use Rattle.tctl.specs.Kind.{Runs};
ghost use Rattle.rule_grammar.specs.Machine.{Join, Opening, Sign, pair, timed, most_of};
ghost use Rattle.rule_bytes.specs.JoinNode.{number_of};
ghost use Rattle.rule_tokens.specs.Tags.{open_tag, until_tag, join_tag, OfOpening, OfRuns, OfUntil, OfJoin};
ghost use Rattle.rule_tokens.specs.Start.{token, start_token, true_from, label_from, bracket_from, start_of};
ghost use Rattle.rule_tokens.specs.Sign.{sign_token, space_from, equal_from, bound_from, sign_from, sign_of};

use rule_numbers::{behind, number_from};

// A tag says what a token is, as a byte, for the parser keeps it on a lent stack of bytes: the node's operation, but for
// these.

// "(", and "|" or "&" unknown yet.
pub const PAIR: u8 = 3;

// Behind a sign a tag is 8 times the operation, and the kind of its bound.
pub const JOINED: u8 = 8;

// The most that c may be behind <= and >=.
const MOST: u32 = 65535;

// What stands at a place, its number, and where it ends. Where none does, the error is the place that none goes on from.
#[derive(Clone, Copy)]
pub struct Token {
    pub tag: u8,
    pub number: u32,
    pub end: usize,
}

fn found(tag: u8, number: u32, end: usize) -> Token
    ensures { result ≡ token tag number end }
{
    Token { tag, number, end }
}

// The rest of `true`, behind its first letter.
fn true_from(text: &[u8], i: usize) -> Result<Token, usize>
    requires { i ≤ length text.now }
    ensures { result ≡ start_token (true_from text.now i) }
{
    let second = behind(text, i, b'r')?;
    let third = behind(text, second, b'u')?;
    let end = behind(text, third, b'e')?;
    Ok(found(rule::TRUE, 0, end))
}

// A label's number.
fn label_from(text: &[u8], i: usize) -> Result<Token, usize>
    requires { i ≤ length text.now }
    ensures { result ≡ start_token (label_from text.now i) }
{
    let number = number_from(text, 15, i).ok_or(i)?;
    Ok(found(rule::LABEL, number.value, number.end))
}

// The bracket behind E or A.
fn bracket_from(text: &[u8], i: usize, tag: u8) -> Result<Token, usize>
    requires { (i ≤ length text.now) × OfRuns tag }
    ensures { (q : Runs) → tag ≡ open_tag (timed q) → result ≡ start_token (bracket_from q text.now i) }
{
    let end = behind(text, i, b'(')?;
    Ok(found(tag, 0, end))
}

// The token where an operand starts.
#[tactic(auto, unfolding(crate::specs::Start::start_of))]
pub fn start(text: &[u8], i: usize) -> Result<Token, usize>
    requires { i ≤ length text.now }
    ensures { result ≡ start_token (start_of text.now i) }
{
    match text.get(i) {
        Some(b't') => true_from(text, i + 1),
        Some(b'L') => label_from(text, i + 1),
        Some(b'!') => Ok(found(rule::NOT, 0, i + 1)),
        Some(b'(') => Ok(found(PAIR, 0, i + 1)),
        Some(b'E') => bracket_from(text, i + 1, rule::SOME_UNTIL),
        Some(b'A') => bracket_from(text, i + 1, rule::ALL_UNTIL),
        _ => Err(i),
    }
}

// The space behind a sign.
fn space_from(text: &[u8], i: usize, tag: u8, number: u32) -> Result<Token, usize>
    requires { (i ≤ length text.now) × OfJoin tag number }
    ensures { (j : Join) → tag ≡ join_tag j → number ≡ number_of j →
        result ≡ sign_token (space_from j text.now i) }
{
    let end = behind(text, i, b' ')?;
    Ok(found(tag, number, end))
}

// "=" and the number behind <, > or =.
fn equal_from(text: &[u8], i: usize, tag: u8, most: u32) -> Result<Token, usize>
    requires { (i ≤ length text.now) × OfUntil tag most }
    ensures { (q : Runs) (s : Sign) → tag ≡ until_tag q s → most ≡ most_of s →
        result ≡ sign_token (equal_from q s text.now i) }
{
    let from = behind(text, i, b'=')?;
    let number = number_from(text, most, from).ok_or(from)?;
    space_from(text, number.end, tag, number.value)
}

// The bound behind U.
fn bound_from(text: &[u8], i: usize, opening: u8) -> Result<Token, usize>
    requires { (i ≤ length text.now) × (opening ≤ 6) × OfRuns opening }
    ensures { (q : Runs) → opening ≡ open_tag (timed q) → result ≡ sign_token (bound_from q text.now i) }
{
    match text.get(i) {
        Some(b'<') => equal_from(text, i + 1, JOINED * opening + rule::AT_MOST, MOST),
        Some(b'>') => equal_from(text, i + 1, JOINED * opening + rule::AT_LEAST, MOST),
        Some(b'=') => equal_from(text, i + 1, JOINED * opening + rule::EXACTLY, rule::LONGEST),
        _ => Err(i),
    }
}

// & or |, behind a space.
fn pair_from(text: &[u8], i: usize) -> Result<Token, usize>
    requires { i ≤ length text.now }
    ensures { result ≡ sign_token (sign_from pair text.now i) }
{
    match text.get(i) {
        Some(b'&') => space_from(text, i + 1, JOINED * rule::AND, 0),
        Some(b'|') => space_from(text, i + 1, JOINED * rule::OR, 0),
        _ => Err(i),
    }
}

// The sign behind the first of two operands, by how they were opened.
#[tactic(auto, unfolding(crate::specs::Sign::sign_of))]
pub fn sign(text: &[u8], i: usize, opening: u8) -> Result<Token, usize>
    requires { (i ≤ length text.now) × (opening ≤ 6) × OfOpening opening }
    ensures { (o : Opening) → opening ≡ open_tag o → result ≡ sign_token (sign_of o text.now i) }
{
    let next = behind(text, i, b' ')?;
    if opening == PAIR {
        return pair_from(text, next);
    }
    let bound = behind(text, next, b'U')?;
    bound_from(text, bound, opening)
}
