// What a refusal says in words: the papers' own sentence, which paper was wrong, and what the place counts.
#![tactic(auto)]

ghost use Rattle.std.specs.Prelude.{◌≡◌, ◌<◌};
ghost use Rattle.append.specs.Piece.{Room, Appended};
ghost use Rattle.lines.specs.Line.{line};
ghost use Rattle.refusal_words.specs.Sentences.{row_of, listed, text_of, paper_of};
ghost use Rattle.refusal_words.specs.Words.{words_of};

// The papers' own sentences, two lines a row: what the place counts, and the condition.
const LISTED: [u8; 1284] = *b"\nchart under 9 bytes\n\
    \nchart version not 1\n\
    \nchart's stated length is not the real one\n\
    \nn outside 1 to 256\n\
    \nm outside 1 to 2,048\n\
    \nlength not 9 + 2n + 8m\n\
    arrow\narrow names a state n or above\n\
    arrow\nfewest above most, or fewest 65,535\n\
    state\nstate without an outgoing arrow\n\
    \nrule under 7 bytes\n\
    \nrule version not 1\n\
    \nrule's stated length is not the real one\n\
    \nk outside 1 to 64, or length not 7 + 8k\n\
    node\nunknown operation, wrong kind, kind 3 with c above 255, label above 15, unused field not 0\n\
    node\noperand not lower than its node\n\
    node\nnode but the last not used exactly once\n\
    \nmarks table under k \xC3\x97 n bytes\n\
    \nscratch under 4n numbers, in count or with kind 3 under 256 \xC3\x97 n\n\
    state\na state from which no loop holding an arrow with most above 0 can be reached\n\
    \nmap under 7 bytes, version not 1, stated length not the real one or not 7 + 2 \xC3\x97 count, or count not the detail's n\n\
    detail state\nmap entry not an overview state\n\
    detail state\nlabels differ\n\
    detail arrow\narrow not covered\n\
    \nnode or state out of range or not such a mark: a marked E-until node, or an unmarked A-until node bounded by \"at most\"\n\
    \nscratch under 257 \xC3\x97 n numbers\n\
    \nno true run of at most 256 steps fits the output\n\
    node\na bound above 255\n\
    byte\ntext not of the grammar\n\
    \ntext above 4,096 bytes, or of above 64 nodes\n\
    \noutput short\n";

// How many rows these are.
const ROWS: usize = 30;

// The row of a number; past the last one if it has none.
fn row_of(number: u32) -> usize
    ensures { result ≡ row_of number }
{
    match number {
        1..=23 => number as usize - 1,
        // 60 follows 23.
        60..=66 => number as usize - 37,
        _ => ROWS,
    }
}

// Line i of the list.
#[tactic(auto, unfolding(crate::specs::Sentences::listed, lines::specs::Line::on_lines))]
fn put_listed(i: usize, at: usize, out: &mut [u8]) -> usize
    requires { Room at (line i listed) out.old }
    ensures { Appended at (line i listed) result out.old out.new }
{
    lines::put_line(&LISTED, i, at, out)
}

// The two texts of a number: what its place counts, and its sentence.
pub const COUNTS: usize = 0;

pub const SENTENCE: usize = 1;

// One of the two; nothing of a number that no call answers.
#[tactic(auto, using(crate::proofs::Rows::row_small, crate::proofs::Texts::text_line))]
pub fn put_text(number: u32, which: usize, at: usize, out: &mut [u8]) -> usize
    requires { (which < 2) × Room at (text_of number which) out.old }
    ensures { Appended at (text_of number which) result out.old out.new }
{
    put_listed(2 * row_of(number) + which, at, out)
}

// The paper of an entry.
pub fn put_paper(entry: u32, at: usize, out: &mut [u8]) -> usize
    requires { Room at (paper_of entry) out.old }
    ensures { Appended at (paper_of entry) result out.old out.new }
{
    lines::put_line(
        b"none\nchart or detail\noverview\nrule\nmap\na buffer\n",
        entry as usize,
        at,
        out,
    )
}

// The words of a refusal, each filled up with zeros.
#[repr(C)]
#[derive(Drop)]
pub struct Words {
    pub sentence: [u8; 128],
    pub paper: [u8; 16],
    pub counts: [u8; 16],
}

// The words of any refusal, or success, with this number and this entry.
pub fn words_of(number: u32, entry: u32) -> Words
    ensures { result ≡ words_of number entry }
{
    let mut counts = [0; 16];
    put_text(number, COUNTS, 0, &mut counts);
    let mut paper = [0; 16];
    put_paper(entry, 0, &mut paper);
    let mut sentence = [0; 128];
    put_text(number, SENTENCE, 0, &mut sentence);
    Words {
        sentence,
        paper,
        counts,
    }
}
