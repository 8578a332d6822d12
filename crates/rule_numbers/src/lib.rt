// Bytes and numbers of a rule's text, at their places.
#![tactic(auto)]

ghost use Rattle.std.specs.Prelude.{◌≡◌, true, ◌-◌, ◌≤◌, ◌<◌, length, drop};
ghost use Rattle.rule_grammar.specs.Machine.{grows as Machine·grows};
ghost use Rattle.rule_numbers.specs.Byte.{byte_is, behind};
ghost use Rattle.rule_numbers.specs.Number.{further, number_from};

#[derive(Clone, Copy)]
pub struct Number {
    pub value: u32,
    pub end: usize,
}

pub fn stands(text: &[u8], i: usize, b: u8) -> bool
    ensures { (result ≡ byte_is text.now i b) × (result ≡ true → i < length text.now) }
{
    text.get(i) == Some(&b)
}

// The place behind byte b, which stands at place i; i itself where it does not.
pub fn behind(text: &[u8], i: usize, b: u8) -> Result<usize, usize>
    ensures { result ≡ behind text.now i b }
{
    if stands(text, i, b) {
        Ok(i + 1)
    } else {
        Err(i)
    }
}

// A digit's own number.
fn digit_value(b: u8) -> u32
    requires { 48 ≤ b }
    ensures { result ≡ b - 48 }
{
    b as u32 - 48
}

// The number n may have this digit behind it.
fn grows(most: u32, n: u32, b: u8) -> bool
    requires { n ≤ 65535 }
    ensures { result ≡ Machine·grows most n b }
{
    decimal::is_digit(b) && 0 < n && n * 10 + digit_value(b) <= most
}

// The digits from place i on that the number n may have behind it.
#[tactic(auto, using(crate::proofs::Further::digit_by_digit))]
fn further_digits(text: &[u8], most: u32, n: u32, i: usize) -> Number
    requires { (n ≤ most) × (most ≤ 65535) × (i ≤ length text.now) }
    ensures { result ≡ further most n (drop i text.now) i }
{
    let mut value = n;
    for end in i..text.len() {
        let b = text[end];
        if !grows(most, value, b) {
            return Number { value, end };
        }
        value = value * 10 + digit_value(b);
    }
    Number {
        value,
        end: text.len(),
    }
}

// The number that starts at place i, if a digit stands there.
#[tactic(auto, unfolding(crate::specs::Number::number_from))]
pub fn number_from(text: &[u8], most: u32, i: usize) -> Option<Number>
    requires { (9 ≤ most) × (most ≤ 65535) × (i ≤ length text.now) }
    ensures { result ≡ number_from most text.now i }
{
    let first = *text.get(i)?;
    if decimal::is_digit(first) {
        Some(further_digits(text, most, digit_value(first), i + 1))
    } else {
        None
    }
}
