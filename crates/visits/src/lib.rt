// What one arrow, or one loop, does to the numbers: the arrow raises the number of its start and is then its hint; the
// loop raises a number to the cap. What is promised is about values; hints and marks may be anything.
#![tactic(auto)]

ghost use Rattle.std.specs.Prelude.{◌≡◌, Bool, false, ℕ, ◌<◌};
ghost use Rattle.hints.specs.Values.{values};
ghost use Rattle.visits.specs.Moves.{Given, Ready, arrow_at, Held, Goes, Visits};

use arrows::Chart;
use ways::{Climb, Way};

// Arrow i would raise the number of its start.
pub fn raises(way: Way, chart: Chart, i: usize, numbers: &[u32]) -> bool
    requires { Given way chart.bytes.now chart.states chart.arrows numbers.now
        × (i < chart.arrows) }
    ensures { result ≡ false → (go : ℕ → Bool) → Ready way go numbers.now →
        Held way go (arrow_at chart.entry.bytes.now i) (values numbers.now) (values numbers.now) }
{
    let a = chart.arrow(i);
    let s = a.start;
    let e = a.end;
    ways::beats(way, a, hints::value(numbers[e]), hints::tested(numbers[s]))
}

// Arrow i raises the number of its start, and is then its hint.
fn raise(way: Way, chart: Chart, i: usize, numbers: &mut [u32]) -> bool
    requires { Given way chart.bytes.now chart.states chart.arrows numbers.old
        × (i < chart.arrows) }
    ensures { Visits way chart.entry.bytes.now chart.entry.arrows i result
        numbers.old numbers.new }
{
    let a = chart.arrow(i);
    let s = a.start;
    let e = a.end;
    let v = ways::offered(way, a, hints::value(numbers[e]));
    let z = numbers[s];
    if v <= hints::tested(z) {
        return false;
    }
    numbers[s] = hints::hinted(z, ways::reached(way, v), i);
    true
}

// The hint of state s is tried.
pub fn follow(way: Way, chart: Chart, s: usize, numbers: &mut [u32]) -> bool
    requires { Given way chart.bytes.now chart.states chart.arrows numbers.old
        × (s < chart.states) }
    ensures { Goes way chart.entry.bytes.now chart.entry.arrows result numbers.old numbers.new }
{
    let i = hints::hint(numbers[s]);
    if chart.arrows <= i {
        return false;
    }
    raise(way, chart, i, numbers)
}

// Arrow i is tried, after the own hint of its start, which stays unless the arrow offered more before. A state whose arrow
// leads back to it would get that as its hint again and again otherwise.
pub fn renew(way: Way, chart: Chart, i: usize, numbers: &mut [u32]) -> bool
    requires { Given way chart.bytes.now chart.states chart.arrows numbers.old
        × (i < chart.arrows) }
    ensures { Visits way chart.entry.bytes.now chart.entry.arrows i result numbers.old numbers.new }
{
    let a = chart.arrow(i);
    let s = a.start;
    let e = a.end;
    let v = ways::offered(way, a, hints::value(numbers[e]));
    let own = follow(way, chart, s, numbers);
    if v <= hints::tested(numbers[s]) {
        return own;
    }
    let new = raise(way, chart, i, numbers);
    own | new
}

// The number of state r goes to the cap, if the hints lead round from there, by so many arrows at most, and time passes.
#[tactic(auto, using(crate::proofs::Went::went_none))]
fn leap_up(climb: Climb, chart: Chart, most: usize, r: usize, numbers: &mut [u32]) -> bool
    requires { Given (Way.Raise climb) chart.bytes.now chart.states chart.arrows numbers.old
        × (r < chart.states) }
    ensures { Goes (Way.Raise climb) chart.entry.bytes.now chart.entry.arrows result
        numbers.old numbers.new }
{
    let x = numbers[r];
    let t = hints::tested(x);
    if t == 0 {
        return false;
    }
    if hints::RADIX <= t {
        return false;
    }
    if !hints::circles(chart, most, numbers, r) {
        return false;
    }
    numbers[r] = hints::retested(x, climb.cap + hints::RADIX);
    true
}

// The same on either way: minutes that fall do not fall for ever.
pub fn leap(way: Way, chart: Chart, most: usize, r: usize, numbers: &mut [u32]) -> bool
    requires { Given way chart.bytes.now chart.states chart.arrows numbers.old
        × (r < chart.states) }
    ensures { Goes way chart.entry.bytes.now chart.entry.arrows result numbers.old numbers.new }
{
    match way {
        Way::Lower => false,
        Way::Raise(climb) => leap_up(climb, chart, most, r, numbers),
    }
}
