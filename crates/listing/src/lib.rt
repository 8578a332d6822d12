// The text of a result, written into a lent buffer piece by piece.
#![tactic(auto)]

ghost use Rattle.std.specs.Prelude.{◌≡◌, ◌+◌, ◌*◌, ◌≤◌, length};
ghost use Rattle.listing.specs.Text.{joined, mark_line, node_line, two_numbers};
ghost use Rattle.listing.specs.Text.{listing, refused_line};
ghost use Rattle.listing.specs.Text.{mark_digit};
ghost use Rattle.append.specs.Piece.{Room, Appended, AtFront};

use outcome::Outcome;

fn mark_digit(byte: u8) -> u8
    ensures { result ≡ mark_digit byte }
{
    if byte == 1 {
        return b'1';
    }
    b'0'
}

fn put_marks(marks: &[u8], start: usize, n: usize, at: usize, out: &mut [u8]) -> usize
    requires { (start + n ≤ length marks.now) × Room at (mark_line n marks.now start) out.old }
    ensures { Appended at (mark_line n marks.now start) result out.old out.new }
{
    let mut end = at;
    for byte in &marks[start..start + n] {
        end = append::put(mark_digit(*byte), end, out);
    }
    end
}

fn put_node(n: usize, marks: &[u8], t: usize, at: usize, out: &mut [u8]) -> usize
    requires { (t * n + n ≤ length marks.now) × Room at (node_line n marks.now t) out.old }
    ensures { Appended at (node_line n marks.now t) result out.old out.new }
{
    let numbered = decimal::put_number(t, at, out);
    let spaced = append::put(b' ', numbered, out);
    let marked = put_marks(marks, t * n, n, spaced, out);
    append::put(b'\n', marked, out)
}

fn put_nodes(n: usize, k: usize, marks: &[u8], at: usize, out: &mut [u8]) -> usize
    requires { (k * n ≤ length marks.now) × Room at (joined k (node_line n marks.now)) out.old }
    ensures { Appended at (joined k (node_line n marks.now)) result out.old out.new }
{
    let mut end = at;
    for t in 0..k {
        end = put_node(n, marks, t, end, out);
    }
    end
}

fn put_numbers(first: &[u8], x: usize, second: &[u8], y: usize, out: &mut [u8]) -> usize
    requires { Room 0 (two_numbers first.now x second.now y) out.old }
    ensures { Appended 0 (two_numbers first.now x second.now y) result
        out.old out.new }
{
    let mut end = append::put_word(first, 0, out);
    end = decimal::put_number(x, end, out);
    end = append::put_word(second, end, out);
    decimal::put_number(y, end, out)
}

// The listing of k nodes at n states: at most 20 bytes in the first line, and 260 in each other.
pub fn list(n: usize, k: usize, marks: &[u8], out: &mut [u8]) -> usize
    requires { (n ≤ 256) × (k ≤ 64) × (k * n ≤ length marks.now) × (20 + 64 * 260 ≤ length out.old) }
    ensures { AtFront (listing n k marks.now) result out.old out.new }
{
    let counted = put_numbers(b"states ", n, b" nodes ", k, out);
    let end = append::put(b'\n', counted, out);
    put_nodes(n, k, marks, end, out)
}

// The line of a refusal: at most 44 bytes.
pub fn refuse(outcome: Outcome, out: &mut [u8]) -> usize
    requires { 44 ≤ length out.old }
    ensures { AtFront (refused_line outcome) result out.old out.new }
{
    let number = outcome.number as usize;
    let place = outcome.place as usize;
    let entry = outcome.entry as usize;
    let placed = put_numbers(b"refused ", number, b" at ", place, out);
    let spaced = append::put(b' ', placed, out);
    let entered = decimal::put_number(entry, spaced, out);
    append::put(b'\n', entered, out)
}
