// The fewest steps to the end of an E-until, exactly c, for each number of minutes left and each state: a row of lent
// numbers for each minute, from no minute left up.
#![tactic(auto)]

ghost use Rattle.std.specs.Prelude.{suc, ◌*◌};
ghost use Rattle.base.specs.Entries.{Entries};
ghost use Rattle.moves.specs.Moves.{arrow_by, move_of};
ghost use Rattle.exact_table.specs.Rows.{RowsLeft, InRow, Word, Words, RowReady, StepsReady};
ghost use Rattle.exact_table.specs.Lowered.{row_begun, LeastAfter, Lowered, Swept, Closed};

use arrows::Chart;
use moves::{Ends, Move};

// No way of at most 256 steps.
const NO_WAY: u32 = 257;

// A row begins with the states where a path can end: no step is left where q holds and no minute
// is left.
fn begin(n: usize, minute: usize, q: &[u8], table: &mut [u32])
    requires { InRow n minute q.now table.old }
    ensures { Entries (minute * n) n (row_begun minute q.now) table.old table.new }
{
    let at = minute * n;
    for s in 0..n {
        table[at + s] = if minute == 0 && q[s] == 1 { 0 } else { NO_WAY };
    }
}

// The least number that the arrow leads to, in at most `longest` minutes.
fn least_after(w: Move, longest: usize, n: usize, minute: usize, table: &[u32]) -> u32
    requires { Word n longest minute (arrow_by w) table.now }
    ensures { LeastAfter n longest minute (arrow_by w) table.now result }
{
    let last = longest.min(w.most);
    let mut least = NO_WAY;
    // `..=` would test its end twice for each duration
    for d in w.fewest..last + 1 {
        let row = (minute - d) * n;
        least = least.min(table[row + w.end]);
    }
    least
}

// An arrow is tried: a step more than what it leads to lowers the number of its start, if that is higher. Whether it is.
fn lower(word: u64, longest: usize, n: usize, minute: usize, table: &mut [u32]) -> bool
    requires { Word n longest minute (move_of word) table.old }
    ensures { Lowered n longest minute (move_of word) result table.old table.new }
{
    let w = moves::unpacked(word);
    let at = minute * n + w.start;
    let steps = least_after(w, longest, n, minute, table) + 1;
    if steps < table[at] {
        table[at] = steps;
        return true;
    }
    false
}

// The arrows of some words are tried, one after another. Whether any number was lowered. Why its
// twin stays, `minute_rows` says.
fn sweep(
    from: usize,
    to: usize,
    words: &[u64],
    longest: usize,
    n: usize,
    minute: usize,
    table: &mut [u32],
) -> bool
    requires { Words n longest minute from to words.now table.old }
    ensures { Swept n longest minute from to words.now result table.old table.new }
{
    let mut new = false;
    for word in &words[from..to] {
        // `new |= ..` takes more instructions
        if lower(*word, longest, n, minute, table) {
            new = true;
        }
    }
    new
}

// The arrows that can take no minute are tried in none until nothing is lowered.
fn rounds(front: usize, words: &[u64], n: usize, minute: usize, table: &mut [u32])
    requires { Words n 0 minute 0 front words.now table.old }
    ensures { Closed n minute front words.now table.old table.new }
{
    while sweep(0, front, words, 0, n, minute, table) {}
}

// The row with so many minutes left, after those with fewer: every arrow is tried in all of its minutes once, since what
// takes time leads to rows that stay, and then those that lead to the row itself.
fn fill_row(
    chart: Chart,
    minute: usize,
    ends: Ends,
    words: &[u64],
    p: &[u8],
    q: &[u8],
    table: &mut [u32],
)
    requires { RowReady chart.bytes.now chart.states minute ends words.now p.now q.now table.old }
    ensures { RowsLeft chart.entry.bytes.now chart.entry.states p.now q.now (suc minute) table.new }
{
    begin(chart.states, minute, q, table);
    sweep(
        ends.back,
        moves::WORDS,
        words,
        minute,
        chart.states,
        minute,
        table,
    );
    sweep(0, ends.front, words, minute, chart.states, minute, table);
    rounds(ends.front, words, chart.states, minute, table);
}

// The rows of up to c minutes left, by the rows p and q of the operands.
pub fn fill_steps(chart: Chart, c: usize, p: &[u8], q: &[u8], table: &mut [u32])
    requires { StepsReady chart.bytes.now chart.states chart.arrows c p.now q.now table.old }
    ensures { RowsLeft chart.entry.bytes.now chart.entry.states p.now q.now (suc c) table.new }
{
    let mut words = [0; moves::WORDS];
    let ends = moves::collect(false, chart, p, q, &mut words);
    for minute in 0..=c {
        fill_row(chart, minute, ends, &words, p, q, table);
    }
}
