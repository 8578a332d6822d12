// Refusal 19: a state from which no loop holding an arrow with most above 0 can be reached. The engine decides it on lent
// numbers, one a state: a path of n ticks goes round such a loop.
#![tactic(auto)]

ghost use Rattle.std.specs.Prelude.{◌≡◌, [], ◌∷◌, ℕ, length};
ghost use Rattle.outcome.specs.Answer.{answer};
ghost use Rattle.outcome.specs.Refusal.{first};
ghost use Rattle.model.specs.Engine.{num};
ghost use Rattle.model.specs.TicksAhead.{ticks_ahead};
ghost use Rattle.chart.specs.Bytes.{chart_of};
ghost use Rattle.hints.specs.Values.{values};
ghost use Rattle.initial.specs.Filled.{Filled};
ghost use Rattle.loops.specs.Refusal.{loop_row, accepted_refusal};
ghost use Rattle.loops.specs.LeftInTime.{TimedUnlessZero, NoneZero};

use arrows::Chart;
use outcome::{Fault, Refusal};
use ways::{Climb, Way};

// Every number becomes 0.
pub fn clear(numbers: &mut [u32])
    ensures { (s : ℕ) → num numbers.new s ≡ 0 }
{
    numbers.fill(0);
}

// Each state that is left by an arrow with most above 0 gets the last such arrow as its hint; the numbers of the others are 0.
fn hint_timed(chart: Chart, numbers: &mut [u32])
    requires { length numbers.old ≡ chart.states }
    ensures { TimedUnlessZero (chart_of chart.entry.bytes.now) numbers.new }
{
    clear(numbers);
    for i in 0..chart.arrows {
        let a = chart.arrow(i);
        let s = a.start;
        if a.most != 0 {
            numbers[s] = hints::hinted(0, 1, i);
        }
    }
}

// Whether no number is 0.
fn none_zero(numbers: &[u32]) -> bool
    ensures { NoneZero result numbers.now }
{
    numbers.iter().all(|&x| x != 0)
}

// Every number becomes the value 1, without a side, and keeps its hint.
fn begin(numbers: &mut [u32])
    ensures { Filled (length numbers.old) (λ s. 1) numbers.new }
{
    for x in numbers.iter_mut() {
        *x = hints::anew(*x, 1);
    }
}

// The number of each state becomes 1 and the most ticks of a path from it, up to n + 1. The engine walks a few states at a
// time: marks are not written before row 19 is decided, and there is no other room.
fn count_ticks(chart: Chart, numbers: &mut [u32])
    requires { length numbers.old ≡ chart.states }
    ensures { values numbers.new ≡ ticks_ahead (chart_of chart.entry.bytes.now).arrows
        chart.entry.states }
{
    begin(numbers);
    let cap = chart.states as u32 + 1;
    let way = Way::Raise(Climb {
        ticks: true,
        leap: false,
        cap,
    });
    let mut row = [0; 16];
    engine::settle(way, chart, &mut row, numbers);
}

// Row 19 by ticks: the lowest state from which no path has n of them.
fn tick_refusal(chart: Chart, numbers: &mut [u32]) -> Result<(), Refusal>
    requires { length numbers.old ≡ chart.states }
    ensures { answer result ≡ first (loop_row chart.entry.bytes.now ∷ []) }
{
    count_ticks(chart, numbers);
    for s in 0..chart.states {
        if hints::value(numbers[s]) as usize <= chart.states {
            return Err(Fault::NoTimedLoop.at(s));
        }
    }
    Ok(())
}

// Row 19, on n lent numbers. Where every state is left by an arrow with most above 0, time can go on for ever along these.
pub fn loop_refusal(chart: Chart, numbers: &mut [u32]) -> Result<(), Refusal>
    requires { length numbers.old ≡ chart.states }
    ensures { answer result ≡ first (loop_row chart.entry.bytes.now ∷ []) }
{
    hint_timed(chart, numbers);
    if none_zero(numbers) {
        return Ok(());
    }
    tick_refusal(chart, numbers)
}

// Number and place of the first of rows 1 to 9 and 19 that is met.
pub fn accepted_refusal(chart: &[u8]) -> Result<(), Refusal>
    ensures { answer result ≡ accepted_refusal chart.now }
{
    chart_refusals::chart_refusal(chart)?;
    let states = chart::state_count(chart);
    let arrows = chart::arrow_count(chart);
    let shown = Chart {
        bytes: chart,
        states,
        arrows,
    };
    let mut numbers = [0; 256];
    loop_refusal(shown, &mut numbers[..states])
}
