// A program's arguments: how many there are, and the numbers among them.
#![tactic(auto)]

ghost use Rattle.std.specs.Prelude.{◌≡◌, ◌+◌, ◌-◌, ◌*◌, ◌≤◌, min};
ghost use Rattle.arguments.specs.Argument.{out_of_range, argument_of};

use std::env::{Env, FillError};

// No node and no state has this number: it stands for every larger one too.
const OUT_OF_RANGE: usize = 65536;

// The number that one more digit makes.
fn with_digit(high: usize, byte: u8) -> usize
    requires { (high ≤ out_of_range) × (48 ≤ byte) × (byte ≤ 57) }
    ensures { result ≡ min (high * 10 + (byte - 48)) out_of_range }
{
    let value = high * 10 + (byte - b'0') as usize;
    value.min(OUT_OF_RANGE)
}

// The number that an argument is in decimal; none of another text.
pub fn decimal_value(text: &[u8]) -> Option<usize>
    ensures { result ≡ argument_of text.now }
{
    if text.is_empty() {
        return None;
    }
    let mut value = 0;
    for byte in text {
        if !decimal::is_digit(*byte) {
            return None;
        }
        value = with_digit(value, *byte);
    }
    Some(value)
}

// Whether the program was started with argument i; argument 0 is its own name.
fn is_given<E: Env>(env: &E, i: usize) -> bool {
    let mut none = [0; 0];
    !matches!(env.arg(i, &mut none), Err(FillError::NotPresent))
}

// Whether the program was started with so many arguments, its own name among them.
pub fn has_arguments<E: Env>(env: &E, count: usize) -> bool {
    (count == 0 || is_given(env, count - 1)) && !is_given(env, count)
}
