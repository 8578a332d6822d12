// One line of a text that holds many, each ended by a newline.
#![tactic(auto)]

ghost use Rattle.std.specs.Prelude.{◌≡◌, ◌≤◌, length, drop, eqb, position};
ghost use Rattle.append.specs.Piece.{Room, Appended};
ghost use Rattle.lines.specs.Line.{behind, line};

// Where line i begins, counted from 0; the text's end if it has no such line.
#[tactic(auto, using(crate::proofs::Passed::passed), unfolding(crate::specs::Line::behind))]
fn line_start(text: &[u8], i: usize) -> usize
    ensures { (drop result text.now ≡ behind i text.now) × (result ≤ length text.now) }
{
    let mut left = i;
    for (start, b) in text.iter().enumerate() {
        if left == 0 {
            return start;
        }
        if *b == b'\n' {
            left -= 1;
        }
    }
    text.len()
}

// Where the first newline of a text stands, if there is one.
fn newline(text: &[u8]) -> Option<usize>
    ensures { result ≡ position (λ b. eqb b 10) text.now }
{
    text.iter().position(|b| *b == b'\n')
}

// Line i, without its newline.
pub fn put_line(text: &[u8], i: usize, at: usize, out: &mut [u8]) -> usize
    requires { Room at (line i text.now) out.old }
    ensures { Appended at (line i text.now) result out.old out.new }
{
    let rest = &text[line_start(text, i)..];
    let size = newline(rest).unwrap_or(rest.len());
    append::put_word(&rest[..size], at, out)
}
