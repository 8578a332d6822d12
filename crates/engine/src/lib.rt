// The engine on lent numbers, one a state: Bellman–Ford in alternating order, positive cycles found by predecessors. Arrows
// of a chart raise the numbers of their starts (they are relaxed), until none does. The arrow that raised a number last is
// its hint (the predecessor). In turn numbers rise along the hints and all arrows are tried.
#![tactic(auto)]

ghost use Rattle.std.specs.Prelude.{◌≡◌, true, ℕ, ◌≤◌, ◌<◌, length};
ghost use Rattle.model.specs.Engine.{num};
ghost use Rattle.hints.specs.Values.{radix, tested_of};
ghost use Rattle.engine.specs.AsModel.{Prepared, AllAsModel};
ghost use Rattle.engine.specs.Rest.{AtRest, hurried_of};

use arrows::Chart;
use ways::{Climb, Way};

// Every number has a side, so that none can rise.
fn all_sided(numbers: &[u32]) -> bool
    ensures { result ≡ true → (s : ℕ) → s < length numbers.now →
        radix ≤ tested_of (num numbers.now s) }
{
    numbers.iter().all(|&x| hints::RADIX <= hints::tested(x))
}

// No state has another value or side than the first.
fn all_alike(numbers: &[u32]) -> bool
    ensures { result ≡ true → (s : ℕ) → s < length numbers.now →
        tested_of (num numbers.now s) ≡ tested_of (num numbers.now 0) }
{
    numbers
        .iter()
        .all(|&x| hints::tested(x) == hints::tested(numbers[0]))
}

// No number can rise: all have a side, or minutes that fall are the same everywhere.
#[tactic(auto, using(crate::proofs::Resting::sided_rest, crate::proofs::Resting::alike_rest))]
fn at_rest(way: Way, numbers: &[u32]) -> bool
    ensures { AtRest result way numbers.now }
{
    if all_sided(numbers) {
        return true;
    }
    match way {
        Way::Lower => all_alike(numbers),
        Way::Raise(_) => false,
    }
}

// The way, with leaps or without.
fn hurried(way: Way, leap: bool) -> Way
    ensures { result ≡ hurried_of way leap }
{
    match way {
        Way::Lower => Way::Lower,
        Way::Raise(climb) => Way::Raise(Climb { leap, ..climb }),
    }
}

// Numbers rise until no arrow raises one. What rises after n sweeps rises without end, and goes to the cap at once.
fn rise(way: Way, chart: Chart, row: &mut [u8], numbers: &mut [u32])
    requires { Prepared way chart.bytes.now chart.states chart.arrows numbers.old }
    ensures { AllAsModel way chart.entry.bytes.now chart.entry.states numbers.old numbers.new }
{
    let mut done = 0;
    let mut seen = true;
    let mut floor = 0;
    loop {
        let pace = hurried(way, chart.states <= done);
        let track = walks::along(pace, seen, chart, row, numbers);
        if at_rest(way, numbers) {
            return;
        }
        // What is known of the arrows before the floor holds until a number changes.
        let known = if track.moved { 0 } else { floor };
        let Some(last) = sweeps::sweep(pace, known, chart, numbers) else {
            return;
        };
        seen = track.seen;
        floor = last;
        done = chart.states.min(done + 1);
    }
}

// The same, and at once where no number can rise: the model's minutes.
pub fn settle(way: Way, chart: Chart, row: &mut [u8], numbers: &mut [u32])
    requires { Prepared way chart.bytes.now chart.states chart.arrows numbers.old }
    ensures { AllAsModel way chart.entry.bytes.now chart.entry.states numbers.old numbers.new }
{
    if at_rest(way, numbers) {
        return;
    }
    rise(way, chart, row, numbers);
}
