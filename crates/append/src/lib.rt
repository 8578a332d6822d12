// Bytes appended to a lent buffer, piece by piece.
#![tactic(auto)]

ghost use Rattle.std.specs.Prelude.{[], ◌∷◌, ◌<◌};
ghost use Rattle.append.specs.BigEndian.{word_bytes, long_bytes};
ghost use Rattle.append.specs.Piece.{Room, Appended};

pub fn put(byte: u8, at: usize, out: &mut [u8]) -> usize
    requires { Room at (byte ∷ []) out.old }
    ensures { Appended at (byte ∷ []) result out.old out.new }
{
    out[at] = byte;
    at + 1
}

// The bytes of a word.
pub fn put_word(word: &[u8], at: usize, out: &mut [u8]) -> usize
    requires { Room at word.now out.old }
    ensures { Appended at word.now result out.old out.new }
{
    let end = at + word.len();
    out[at..end].copy_from_slice(word);
    end
}

// A number of two bytes.
pub fn put_be16(x: u32, at: usize, out: &mut [u8]) -> usize
    requires { (x < 65536) × Room at (word_bytes x) out.old }
    ensures { Appended at (word_bytes x) result out.old out.new }
{
    put_word(&(x as u16).to_be_bytes(), at, out)
}

// A number of four bytes.
pub fn put_be32(x: u32, at: usize, out: &mut [u8]) -> usize
    requires { Room at (long_bytes x) out.old }
    ensures { Appended at (long_bytes x) result out.old out.new }
{
    put_word(&x.to_be_bytes(), at, out)
}
