// Big-endian numbers in a lent slice.
#![tactic(auto)]

ghost use Rattle.std.specs.Prelude.{◌≡◌, ◌+◌, ◌<◌, length};
ghost use Rattle.words.specs.Word.{word, long};

pub fn wide(x: u8) -> u32
    ensures { (result ≡ x) × (result < 256) }
{
    x as u32
}

// Two bytes from i on.
pub fn be16(s: &[u8], i: usize) -> u32
    requires { i + 1 < length s.now }
    ensures { (result ≡ word s.now i) × (result < 65536) }
{
    let hi = wide(s[i]);
    let lo = wide(s[i + 1]);
    hi * 256 + lo
}

// Four bytes from i on.
pub fn be32(s: &[u8], i: usize) -> u32
    requires { i + 3 < length s.now }
    ensures { result ≡ long s.now i }
{
    let hi = be16(s, i);
    let lo = be16(s, i + 2);
    hi * 65536 + lo
}
