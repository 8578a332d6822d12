// What is printed of a typed text that is refused, written into a lent buffer line by line.
#![tactic(auto)]

ghost use Rattle.std.specs.Prelude.{◌≡◌, ◌+◌, ◌≤◌, length};
ghost use Rattle.append.specs.Piece.{Room, Appended, AtFront};
ghost use Rattle.typed_listing.specs.Refused.{shown_byte, shown_text, spaces, caret_line, refused_text};

use outcome::Outcome;

fn shown_byte(byte: u8) -> u8
    ensures { result ≡ shown_byte byte }
{
    if byte < b' ' || byte == 127 {
        return b'?';
    }
    byte
}

fn put_shown(text: &[u8], at: usize, out: &mut [u8]) -> usize
    requires { Room at (shown_text text.now) out.old }
    ensures { Appended at (shown_text text.now) result out.old out.new }
{
    let mut end = at;
    for byte in text {
        end = append::put(shown_byte(*byte), end, out);
    }
    end
}

fn put_spaces(count: usize, at: usize, out: &mut [u8]) -> usize
    requires { Room at (spaces count) out.old }
    ensures { Appended at (spaces count) result out.old out.new }
{
    let mut end = at;
    for _ in 0..count {
        end = append::put(b' ', end, out);
    }
    end
}

fn put_caret(place: usize, at: usize, out: &mut [u8]) -> usize
    requires { Room at (caret_line place) out.old }
    ensures { Appended at (caret_line place) result out.old out.new }
{
    let spaced = put_spaces(place, at, out);
    append::put_word(b"^\n", spaced, out)
}

// What is printed of the refusal of a text: a line of at most 44 bytes, the text's, and the caret's.
pub fn refuse_text(outcome: Outcome, text: &[u8], out: &mut [u8]) -> usize
    requires { 44 + length text.now + 1 + outcome.place + 2 ≤ length out.old }
    ensures { AtFront (refused_text outcome text.now) result out.old out.new }
{
    let place = outcome.place as usize;
    let lined = listing::refuse(outcome, out);
    let shown = put_shown(text, lined, out);
    let ended = append::put(b'\n', shown, out);
    put_caret(place, ended, out)
}
