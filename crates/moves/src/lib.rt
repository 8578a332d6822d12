// The arrows that are followed minute by minute, a word each, so that a chart is read once for all minutes: those from
// states where an until is open. Those that can take no minute stand from the first word up, the others from the last
// down.
#![tactic(auto)]

ghost use Rattle.std.specs.Prelude.{◌≡◌, ◌≤◌, ◌<◌, length};
ghost use Rattle.chart.specs.Bytes.{arrow_of};
ghost use Rattle.arrows.specs.Read.{Low};
ghost use Rattle.arrow_links.specs.Linked.{Linked};
ghost use Rattle.moves.specs.Moves.{capped, move_of, arrow_by, is_open, open_in, WithArrow, Collectable, Collected};
ghost use Rattle.moves.specs.Turns.{Ready, WithState};

use arrows::Chart;
use chart::ArrowWords;

// A word for each of the most arrows of a chart.
pub const WORDS: usize = arrow_links::ARROWS;

// More minutes than are ever left.
const LONG: u32 = 256;

// An arrow, its minutes up to `LONG`.
#[derive(Clone, Copy)]
pub struct Move {
    pub start: usize,
    pub end: usize,
    pub fewest: usize,
    pub most: usize,
}

// Words up to `front` and from `back` on hold arrows.
#[derive(Clone, Copy)]
pub struct Ends {
    pub front: usize,
    pub back: usize,
}

// Whether an until is open at a state with the marks p and q; q is asked for only where the bound is met.
pub fn is_open(met: bool, p: bool, q: bool) -> bool
    ensures { result ≡ is_open met p q }
{
    p & !(met & q)
}

// The word of an arrow: from below start and end of 8 bits, fewest and most of 9.
fn packed(a: ArrowWords) -> u64
    requires { Low a }
    ensures { move_of result ≡ capped (arrow_of a) }
{
    let fewest = a.fewest.min(LONG);
    let most = a.most.min(LONG);
    a.start as u64 + 256 * (a.end as u64) + 65536 * (fewest as u64) + 33554432 * (most as u64)
}

// The arrow of a word.
pub fn unpacked(word: u64) -> Move
    ensures { arrow_by result ≡ move_of word }
{
    Move {
        start: (word % 256) as usize,
        end: (word / 256 % 256) as usize,
        fewest: (word / 65536 % 512) as usize,
        most: (word / 33554432 % 512) as usize,
    }
}

// The words with one arrow more.
fn with_arrow(a: ArrowWords, ends: Ends, words: &mut [u64]) -> Ends
    requires { Low a × (ends.front < ends.back) × (ends.back ≤ length words.old) }
    ensures { WithArrow (arrow_of a) ends result words.old words.new }
{
    let front = ends.front;
    let back = ends.back;
    let word = packed(a);
    if a.fewest == 0 {
        words[front] = word;
        return Ends {
            front: front + 1,
            back,
        };
    }
    let last = back - 1;
    words[last] = word;
    Ends { front, back: last }
}

// The words with the arrows of one state more, from its lowest on.
fn with_state(
    chart: Chart,
    firsts: &[u32],
    nexts: &[u32],
    s: usize,
    ends: Ends,
    words: &mut [u64],
) -> Ends
    requires { Linked chart.bytes.now chart.states chart.arrows 0 firsts.now nexts.now
        × (s < chart.states) × Ready chart.bytes.now s ends words.old }
    ensures { WithState chart.entry.bytes.now s ends result words.old words.new }
{
    let mut grown = ends;
    let mut i = firsts[s] as usize;
    while i < chart.arrows {
        let a = chart.arrow(i);
        grown = with_arrow(a, grown, words);
        i = nexts[i] as usize;
    }
    grown
}

// The arrows from states where the until is open, by the rows p and q of its operands; state by state, since the
// sweeps over the words are faster where arrows from one state stand together.
pub fn collect(met: bool, chart: Chart, p: &[u8], q: &[u8], words: &mut [u64]) -> Ends
    requires { Collectable chart.bytes.now chart.states chart.arrows p.now q.now words.old }
    ensures { Collected chart.entry.bytes.now (open_in met p.now q.now) result words.new }
{
    let mut firsts = [0; arrow_links::STATES];
    let mut nexts = [0; arrow_links::ARROWS];
    arrow_links::link(chart, &mut firsts, &mut nexts);
    let mut ends = Ends {
        front: 0,
        back: WORDS,
    };
    for s in 0..chart.states {
        if is_open(met, p[s] == 1, q[s] == 1) {
            ends = with_state(chart, &firsts, &nexts, s, ends, words);
        }
    }
    ends
}
