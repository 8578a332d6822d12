// What a desk program says: a refusal told on standard error, under what is printed of it; bytes printed.
#![tactic(auto)]

ghost use Rattle.std.specs.Prelude.{◌≡◌, ◌≤◌, length};
ghost use Rattle.append.specs.Piece.{Room, Appended, AtFront};
ghost use Rattle.refusal_words.specs.Sentences.{counts_of};
ghost use Rattle.telling.specs.Told.{counted_text, told_text, told};

use outcome::Outcome;
use std::io::Print;

// The bytes of the longest line.
const LINE: usize = 192;

// How many bytes tell what the place counts.
fn counts_size(number: u32) -> usize
    ensures { result ≡ length (counts_of number) }
{
    let mut counts = [0; 16];
    refusal_words::put_text(number, refusal_words::COUNTS, 0, &mut counts)
}

// What the place counts, and the place.
fn put_counted(number: u32, place: u32, at: usize, out: &mut [u8]) -> usize
    requires { Room at (counted_text number place) out.old }
    ensures { Appended at (counted_text number place) result out.old out.new }
{
    if counts_size(number) == 0 {
        return at;
    }
    let mut end = append::put_word(b", ", at, out);
    end = refusal_words::put_text(number, refusal_words::COUNTS, end, out);
    end = append::put(b' ', end, out);
    decimal::put_number(place as usize, end, out)
}

// What is wrong, and in which paper.
fn put_told(outcome: Outcome, at: usize, out: &mut [u8]) -> usize
    requires { Room at (told_text outcome) out.old }
    ensures { Appended at (told_text outcome) result out.old out.new }
{
    let mut end = refusal_words::put_text(outcome.number, refusal_words::SENTENCE, at, out);
    end = append::put_word(b" (", end, out);
    end = refusal_words::put_paper(outcome.entry, end, out);
    put_counted(outcome.number, outcome.place, end, out)
}

// The line in which a program tells a refusal; nothing of an acceptance.
fn tell_into(program: &[u8], outcome: Outcome, out: &mut [u8]) -> usize
    requires { (length program.now ≤ 9) × (192 ≤ length out.old) }
    ensures { AtFront (told program.now outcome) result out.old out.new }
{
    if outcome.number == 0 {
        return 0;
    }
    let mut end = append::put_word(program, 0, out);
    end = append::put_word(b": ", end, out);
    end = put_told(outcome, end, out);
    append::put_word(b")\n", end, out)
}

// Prints bytes. What can't be written is passed over: there is no one to be told.
pub fn print<P: Print>(to: &P, bytes: &[u8]) {
    to.write_all(bytes).ok();
}

// Prints that line.
pub fn tell<P: Print>(to: &P, program: &[u8], outcome: Outcome)
    requires { length program.now ≤ 9 }
{
    let mut line = [0; LINE];
    let size = tell_into(program, outcome, &mut line);
    print(to, &line[..size]);
}
