// The table by minutes on lent numbers: a row for each number of minutes left, and in it a number for each state, the
// last row up to this one in which the state makes it, counted from 1, which is the row beyond. So an arrow's slot
// takes one comparison, however wide it is.
#![tactic(auto)]

ghost use Rattle.std.specs.Prelude.{◌≡◌, cond, suc, ◌*◌};
ghost use Rattle.base.specs.Entries.{Entries};
ghost use Rattle.chart.specs.Bytes.{chart_of};
ghost use Rattle.minutes.specs.Untils.{met_with};
ghost use Rattle.moves.specs.Moves.{arrow_by, move_of};
ghost use Rattle.minute_rows.specs.Numbers.{last_below, bare, end_only, task_in, stops_by};
ghost use Rattle.minute_rows.specs.Filled.{RowsFilled, InRow, Rows, Word, Words, Ready, Steady, MinuteReady};
ghost use Rattle.minute_rows.specs.Filled.{row_begun, leads_on, Followed, Swept, Closed};

use arrows::Chart;
use moves::{Ends, Move};

// When a bound is met, by the minutes that are left of it: always, as at most is; with none left, as exactly is; or
// only after, as at least is.
#[derive(Clone, Copy, PartialEq, Eq)]
pub enum Met {
    Always,
    AtEnd,
    Never,
}

// What is asked: to fail an A-until or to meet an E-until; and when its bound is met.
#[derive(Clone, Copy)]
pub struct Asked {
    pub all: bool,
    pub met: Met,
}

// Whether the bound is met with so many minutes left.
fn met_in(met: Met, minute: usize) -> bool
    ensures { result ≡ met_with (bare met) minute }
{
    match met {
        Met::Always => true,
        Met::AtEnd => minute == 0,
        Met::Never => false,
    }
}

// Whether a state with the marks p and q makes it at once, where the bound is met or not.
fn stops(all: bool, met: bool, p: bool, q: bool) -> bool
    ensures { result ≡ stops_by all met p q }
{
    let there = met & q;
    if all {
        return !(p | there);
    }
    there
}

// The last row below in which s makes it, counted from 1; 0 if there is none.
fn below(n: usize, minute: usize, s: usize, beyond: &[u8], numbers: &[u32]) -> u32
    requires { InRow n minute s beyond.now numbers.now }
    ensures { result ≡ last_below n beyond.now numbers.now s (suc minute) }
{
    if minute == 0 {
        return (beyond[s] == 1) as u32;
    }
    let row = (minute - 1) * n;
    numbers[row + s]
}

// A row begins with the states that make it at once, where the bound is met or not.
fn begin(
    all: bool,
    met: bool,
    n: usize,
    minute: usize,
    p: &[u8],
    q: &[u8],
    beyond: &[u8],
    numbers: &mut [u32],
)
    requires { Rows n minute p.now q.now beyond.now numbers.old }
    ensures { Entries (minute * n) n
        (row_begun all met n minute p.now q.now beyond.now numbers.old)
        numbers.old numbers.new }
{
    let at = minute * n;
    let made = minute as u32 + 2;
    for s in 0..n {
        let last = below(n, minute, s, beyond, numbers);
        numbers[at + s] = if stops(all, met, p[s] == 1, q[s] == 1) {
            made
        } else {
            last
        };
    }
}

// Some duration of the slot leads on.
fn leads(w: Move, n: usize, minute: usize, beyond: &[u8], numbers: &[u32]) -> bool
    requires { Word n minute (arrow_by w) beyond.now numbers.now }
    ensures { result ≡ leads_on n minute beyond.now numbers.now (arrow_by w) }
{
    let end = w.end;
    if minute < w.fewest {
        return beyond[end] == 1;
    }
    let row = (minute - w.fewest) * n;
    let last = numbers[row + end];
    if minute < w.most {
        return 0 < last;
    }
    let lowest = (minute + 1 - w.most) as u32;
    lowest < last
}

// An arrow is followed: its start makes it too, if it leads on. Whether that is new.
fn follow(word: u64, n: usize, minute: usize, beyond: &[u8], numbers: &mut [u32]) -> bool
    requires { Word n minute (move_of word) beyond.now numbers.old }
    ensures { Followed n minute (move_of word) beyond.now result
        numbers.old numbers.new }
{
    let w = moves::unpacked(word);
    let at = minute * n + w.start;
    let made = minute as u32 + 2;
    if numbers[at] == made {
        return false;
    }
    if leads(w, n, minute, beyond, numbers) {
        numbers[at] = made;
        return true;
    }
    false
}

// The arrows of some words are followed, one after another. Whether anything is new. Its twin of
// `exact_table` stays: one sweep for both would take what a step asks and promises as ghost members,
// and each proof would keep all that it has.
fn sweep(
    from: usize,
    to: usize,
    words: &[u64],
    n: usize,
    minute: usize,
    beyond: &[u8],
    numbers: &mut [u32],
) -> bool
    requires { Words n minute from to words.now beyond.now numbers.old }
    ensures { Swept n minute from to words.now beyond.now result
        numbers.old numbers.new }
{
    let mut new = false;
    for word in &words[from..to] {
        // `new |= ..` takes more instructions
        if follow(*word, n, minute, beyond, numbers) {
            new = true;
        }
    }
    new
}

// The arrows that can take no minute are followed until nothing is new.
fn rounds(front: usize, words: &[u64], n: usize, minute: usize, beyond: &[u8], numbers: &mut [u32])
    requires { Words n minute 0 front words.now beyond.now numbers.old }
    ensures { Closed n minute front words.now beyond.now
        numbers.old numbers.new }
{
    while sweep(0, front, words, n, minute, beyond, numbers) {}
}

// The row with so many minutes left, after those with fewer.
pub fn fill_row(
    asked: Asked,
    chart: Chart,
    minute: usize,
    ends: Ends,
    words: &[u64],
    p: &[u8],
    q: &[u8],
    beyond: &[u8],
    numbers: &mut [u32],
)
    requires { MinuteReady asked chart.bytes.now chart.states minute ends words.now p.now q.now
        beyond.now numbers.old }
    ensures { RowsFilled (chart_of chart.entry.bytes.now) chart.entry.states
        (task_in asked p.now q.now beyond.now) (suc minute) numbers.new }
{
    let met = met_in(asked.met, minute);
    begin(asked.all, met, chart.states, minute, p, q, beyond, numbers);
    sweep(
        ends.back,
        moves::WORDS,
        words,
        chart.states,
        minute,
        beyond,
        numbers,
    );
    rounds(ends.front, words, chart.states, minute, beyond, numbers);
}

// The rows from one on up to so many, with each of which the bound is met, or with none. Their arrows are collected once.
fn fill_rows_from(
    asked: Asked,
    from: usize,
    count: usize,
    chart: Chart,
    p: &[u8],
    q: &[u8],
    beyond: &[u8],
    numbers: &mut [u32],
)
    requires ready { Ready count chart.bytes.now chart.states chart.arrows p.now q.now beyond.now
        numbers.old }
    requires steady { Steady asked from count chart.bytes.now chart.states p.now q.now beyond.now
        numbers.old }
    ensures { RowsFilled (chart_of chart.entry.bytes.now) chart.entry.states
        (task_in asked p.now q.now beyond.now) count numbers.new }
{
    let mut words = [0; moves::WORDS];
    let met = met_in(asked.met, from);
    let ends = moves::collect(met, chart, p, q, &mut words);
    for minute in from..count {
        fill_row(asked, chart, minute, ends, &words, p, q, beyond, numbers);
    }
}

// So many rows, the first of which has no minute left. An exact bound is met in that one alone.
pub fn fill_rows(
    asked: Asked,
    count: usize,
    chart: Chart,
    p: &[u8],
    q: &[u8],
    beyond: &[u8],
    numbers: &mut [u32],
)
    requires { Ready count chart.bytes.now chart.states chart.arrows p.now q.now beyond.now
        numbers.old }
    ensures { RowsFilled (chart_of chart.entry.bytes.now) chart.entry.states
        (task_in asked p.now q.now beyond.now) count numbers.new }
{
    if asked.met == Met::AtEnd {
        fill_rows_from(asked, 0, 1, chart, p, q, beyond, numbers);
        fill_rows_from(asked, 1, count, chart, p, q, beyond, numbers);
        return;
    }
    fill_rows_from(asked, 0, count, chart, p, q, beyond, numbers);
}
