// Numbers in decimal: their digits, and writing them into a lent buffer.
#![tactic(auto)]

ghost use Rattle.std.specs.Prelude.{◌≡◌, ◌+◌, ◌%◌};
ghost use Rattle.append.specs.Piece.{Room, Appended};
ghost use Rattle.decimal.specs.Decimal.{decimal};
ghost use Rattle.decimal.specs.Value.{is_digit};

pub fn is_digit(byte: u8) -> bool
    ensures { result ≡ is_digit byte }
{
    byte.is_ascii_digit()
}

// The last digit of x.
fn digit(x: usize) -> u8
    ensures { result ≡ 48 + x % 10 }
{
    b'0' + (x % 10) as u8
}

#[tactic(auto, using(crate::proofs::Decimal::decimal_last))]
pub fn put_number(x: usize, at: usize, out: &mut [u8]) -> usize
    requires { Room at (decimal x) out.old }
    ensures { Appended at (decimal x) result out.old out.new }
{
    if x < 10 {
        return append::put(digit(x), at, out);
    }
    let end = put_number(x / 10, at, out);
    append::put(digit(x), end, out)
}
