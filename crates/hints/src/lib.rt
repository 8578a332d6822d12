// Numbers with hints: for each state an arrow that it may leave by. From below a number is a value, a side, a mark of
// walks and a hint, an arrow's number. The side puts a state where no comparison changes it. Nobody takes hints on trust:
// what is found by them is tested, and nothing is promised of hints and marks.
#![tactic(auto)]

ghost use Rattle.std.specs.Prelude.{◌≡◌, Bool, true, cond, ℕ, ◌<◌, length, eqb};
ghost use Rattle.chart.specs.Bytes.{chart_of};
ghost use Rattle.hints.specs.Circle.{Circles};
ghost use Rattle.hints.specs.Values.{sided, value_of, tested_of, Open};

use arrows::Chart;

// Values are below it, and a side is worth it.
pub const RADIX: u32 = 262144;

// Values with their sides are below it, and a mark is worth it.
pub const SIDED: u32 = 524288;

// The hint counts it.
const HINT: u32 = 1048576;

// The value of the number x.
pub fn value(x: u32) -> u32
    ensures { result ≡ value_of x }
{
    x % RADIX
}

// The value of the number x with its side.
pub fn tested(x: u32) -> u32
    ensures { result ≡ tested_of x }
{
    x % SIDED
}

// The hint of the number x.
pub fn hint(x: u32) -> usize {
    (x / HINT) as usize
}

// Another value and side, without a mark, and with the hint of the number x.
pub fn anew(x: u32, t: u32) -> u32
    requires { t < sided }
    ensures { tested_of result ≡ t }
{
    x - x % HINT + t
}

// The number x with another value and side.
pub fn retested(x: u32, t: u32) -> u32
    requires { t < sided }
    ensures { tested_of result ≡ t }
{
    x - x % SIDED + t
}

// The number x with another value and side, and with the hint of arrow i.
pub fn hinted(x: u32, t: u32, i: usize) -> u32
    requires { (t < sided) × (i < 2048) }
    ensures { tested_of result ≡ t }
{
    x % HINT - x % SIDED + i as u32 * HINT + t
}

// Whether the number x has the mark.
pub fn marked(x: u32) -> bool {
    SIDED <= x % HINT
}

// The number x with the mark, if it had none, else without.
pub fn turned(x: u32) -> u32
    ensures { tested_of result ≡ tested_of x }
{
    if marked(x) {
        return x - x % HINT + x % SIDED;
    }
    x - x % HINT + x % SIDED + SIDED
}

// Time passed before, or can pass on an arrow with the word most.
fn time_passes(passes: bool, most: u32) -> bool
    ensures { result ≡ cond (eqb most 0) passes true }
{
    passes | (most != 0)
}

// The hints lead from r back to r, by so many arrows at most, through states whose numbers have no side, and time can
// pass on the way. It is such a loop by minutes and by ticks.
pub fn circles(chart: Chart, most: usize, numbers: &[u32], r: usize) -> bool
    requires { (length numbers.now ≡ chart.states) × (r < chart.states) }
    ensures { (go : ℕ → Bool) → Open go numbers.now →
        Circles result (chart_of chart.entry.bytes.now) go r }
{
    let mut at = r;
    let mut passes = false;
    for _ in 0..most {
        let x = numbers[at];
        let i = hint(x);
        if chart.arrows <= i {
            return false;
        }
        let a = chart.arrow(i);
        if a.start != at {
            return false;
        }
        if RADIX <= tested(x) {
            return false;
        }
        passes = time_passes(passes, a.most);
        at = a.end;
        if at == r {
            return passes;
        }
    }
    false
}
