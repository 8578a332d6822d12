// Walks along the hints: numbers rise by passes in the order of states, and by walks from state to state and back. A row is
// lent for the states of a walk; it may have any length, and a walk ends where it does.
#![tactic(auto)]

ghost use Rattle.std.specs.Prelude.{◌≡◌, true, ◌≤◌, ◌<◌, length};
ghost use Rattle.visits.specs.Moves.{Given, Goes};
ghost use Rattle.walks.specs.Walk.{Walks, Remarked};

use arrows::Chart;
use ways::Way;

// The hint of every state is tried, from the first state to the last or back.
fn pass(way: Way, back: bool, chart: Chart, numbers: &mut [u32]) -> bool
    requires { Given way chart.bytes.now chart.states chart.arrows numbers.old }
    ensures { Goes way chart.entry.bytes.now chart.entry.arrows result numbers.old numbers.new }
{
    let mut any = false;
    for k in 0..chart.states {
        let s = if back { chart.states - 1 - k } else { k };
        any |= visits::follow(way, chart, s, numbers);
    }
    any
}

// Where a walk came to, by so many states.
#[derive(Clone, Copy)]
struct Steps {
    at: usize,
    count: usize,
}

// No walk goes on from the number x: it was met on one of these walks, or has a side.
fn ends(seen: bool, x: u32) -> bool {
    if hints::RADIX <= hints::tested(x) {
        return true;
    }
    hints::marked(x) == seen
}

// A walk along the hints, of as many states at most as the row has room for. The row has its states, and their marks are
// turned.
fn trail(seen: bool, chart: Chart, from: usize, row: &mut [u8], numbers: &mut [u32]) -> Steps
    requires { (length numbers.old ≡ chart.states) × (from < chart.states) }
    ensures { Remarked numbers.old numbers.new × (result.at < chart.entry.states)
        × (result.count ≤ length row.old) }
{
    let mut at = from;
    for (k, place) in row.iter_mut().enumerate() {
        let x = numbers[at];
        let i = hints::hint(x);
        if ends(seen, x) | (chart.arrows <= i) {
            return Steps { at, count: k };
        }
        numbers[at] = hints::turned(x);
        *place = at as u8;
        at = chart.arrow(i).end;
    }
    Steps {
        at,
        count: row.len(),
    }
}

// The walk back: the hints of the states that the row has are tried, from the last of them to the first. The row is not
// taken on trust.
fn back(way: Way, chart: Chart, count: usize, row: &[u8], numbers: &mut [u32])
    requires { Given way chart.bytes.now chart.states chart.arrows numbers.old
        × (count ≤ length row.now) }
    ensures { Walks way chart.entry.bytes.now chart.entry.arrows true numbers.old numbers.new }
{
    for &x in row[..count].iter().rev() {
        let s = x as usize;
        if chart.states <= s {
            return;
        }
        visits::follow(way, chart, s, numbers);
    }
}

// A walk from state s and back. Where it comes to a state of its own, numbers may rise round a loop.
fn walk_from(way: Way, seen: bool, chart: Chart, s: usize, row: &mut [u8], numbers: &mut [u32])
    requires { Given way chart.bytes.now chart.states chart.arrows numbers.old
        × (s < chart.states) }
    ensures { Walks way chart.entry.bytes.now chart.entry.arrows true numbers.old numbers.new }
{
    let t = trail(seen, chart, s, row, numbers);
    visits::leap(way, chart, t.count, t.at, numbers);
    back(way, chart, t.count, row, numbers);
}

// A walk from each state that was not met on one of them.
fn walk(way: Way, seen: bool, chart: Chart, row: &mut [u8], numbers: &mut [u32])
    requires { Given way chart.bytes.now chart.states chart.arrows numbers.old }
    ensures { Walks way chart.entry.bytes.now chart.entry.arrows true numbers.old numbers.new }
{
    for s in 0..chart.states {
        walk_from(way, seen, chart, s, row, numbers);
    }
}

// The hints are tried once more where minutes fall, in the other order. Answers whether walks are called for.
#[tactic(auto, using(crate::proofs::Walks::runs_none))]
fn again(way: Way, chart: Chart, numbers: &mut [u32]) -> bool
    requires { Given way chart.bytes.now chart.states chart.arrows numbers.old }
    ensures { Walks way chart.entry.bytes.now chart.entry.arrows true numbers.old numbers.new }
{
    match way {
        Way::Lower => pass(way, false, chart, numbers),
        Way::Raise(_) => true,
    }
}

// Which marks the next walk takes for those of states that it met, and whether a number may have changed.
#[derive(Clone, Copy)]
pub struct Track {
    pub seen: bool,
    pub moved: bool,
}

// Numbers rise along the hints: by passes in the order of states, and if that is not enough by walks.
pub fn along(way: Way, seen: bool, chart: Chart, row: &mut [u8], numbers: &mut [u32]) -> Track
    requires { Given way chart.bytes.now chart.states chart.arrows numbers.old }
    ensures { Walks way chart.entry.bytes.now chart.entry.arrows result.moved
        numbers.old numbers.new }
{
    if !pass(way, true, chart, numbers) {
        return Track { seen, moved: false };
    }
    if !again(way, chart, numbers) {
        return Track { seen, moved: true };
    }
    walk(way, seen, chart, row, numbers);
    Track {
        seen: !seen,
        moved: true,
    }
}
