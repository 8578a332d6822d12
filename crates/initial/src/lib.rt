// What numbers start from, state by state, by the marks of two operands. A number keeps its hint.
#![tactic(auto)]

ghost use Rattle.std.specs.Prelude.{◌≡◌, ◌+◌, ◌*◌, ◌≤◌, length};
ghost use Rattle.model.specs.Marks.{mark};
ghost use Rattle.ways.specs.Way.{highest, top};
ghost use Rattle.initial.specs.Initial.{cap_of, initial_of, Chosen, Placed, Initially, one_of, Foreseen};
ghost use Rattle.initial.specs.Filled.{Filled, Sured};

use arrows::Chart;

// What numbers start from, by p and q; minutes that fall are what they leave to the top.
// Reach: 0 minutes at q, else the cap, through p. Goal: 1 at q, else 0, through p. Fail: 1 at p or q, else the cap,
// through p where q does not hold. Stay: the cap of minutes at p, else 0, through every state.
#[derive(Clone, Copy)]
pub enum Initial {
    Reach(u32),
    Goal(u32),
    Fail(u32),
    Stay(u32),
}

// x where b holds, else y: a choice, and no paths for the code around it, nor for its proofs.
fn either(b: bool, x: u32, y: u32) -> u32
    ensures { Chosen b x y result }
{
    if b {
        return x;
    }
    y
}

// The value v, with a side unless its state is gone through and it is below the limit.
fn placed(v: u32, go: bool, limit: u32) -> u32
    requires { v ≤ top }
    ensures { Placed v go limit result }
{
    v + either(!(go & (v < limit)), hints::RADIX, 0)
}

// The value and the side from the marks p and q.
fn initial_of(initial: Initial, p: bool, q: bool) -> u32
    requires { cap_of initial ≤ highest }
    ensures { Initially initial p q result }
{
    let t = ways::TOP;
    match initial {
        Initial::Reach(cap) => placed(either(q, t, t - cap), p, t),
        Initial::Goal(cap) => placed(either(q, 1, 0), p, cap),
        Initial::Fail(cap) => placed(either(p | q, 1, cap), p & !q, cap),
        Initial::Stay(cap) => placed(either(p, t - cap, t), true, t),
    }
}

// What an initial gives where neither mark holds, only the first, only the second, or both.
#[derive(Clone, Copy)]
struct Four {
    neither: u32,
    first: u32,
    second: u32,
    both: u32,
}

// The four of an initial, found once and not at each state.
fn four_of(initial: Initial) -> Four
    requires { cap_of initial ≤ highest }
    ensures { Foreseen initial result }
{
    Four {
        neither: initial_of(initial, false, false),
        first: initial_of(initial, true, false),
        second: initial_of(initial, false, true),
        both: initial_of(initial, true, true),
    }
}

// The one of four for the marks p and q.
#[tactic(auto, unfolding(crate::specs::Initial::one_of))]
fn one_of(four: Four, p: bool, q: bool) -> u32
    ensures { result ≡ one_of four p q }
{
    either(
        p,
        either(q, four.both, four.first),
        either(q, four.second, four.neither),
    )
}

// Numbers from the rows of a and b.
pub fn fill_numbers(
    initial: Initial,
    n: usize,
    a: usize,
    b: usize,
    marks: &[u8],
    numbers: &mut [u32],
)
    requires numbers_len { (length numbers.old ≡ n) × (a * n + n ≤ length marks.now) × (b * n + n ≤ length marks.now) }
    requires initial_bound { cap_of initial ≤ highest }
    ensures { Filled n
        (λ s. initial_of initial (mark n marks.now a s) (mark n marks.now b s)) numbers.new }
{
    let left = a * n;
    let right = b * n;
    let four = four_of(initial);
    for s in 0..n {
        let p = marks[left + s] == 1;
        let q = marks[right + s] == 1;
        numbers[s] = hints::anew(numbers[s], one_of(four, p, q));
    }
}

// The value of each state from which an arrow leads to where good does not hold becomes the top. A choice instead of a
// test, since marks are data that no processor foretells.
fn clear_each(chart: Chart, good: &[u8], numbers: &mut [u32])
    requires { (length good.now ≡ chart.states) × (length numbers.old ≡ chart.states) }
    ensures { Sured chart.entry.bytes.now chart.entry.states good.now numbers.old numbers.new }
{
    for i in 0..chart.arrows {
        let a = chart.arrow(i);
        let start = a.start;
        let end = a.end;
        let x = numbers[start];
        let full = hints::retested(x, ways::TOP + hints::RADIX);
        numbers[start] = either(good[end] == 1, x, full);
    }
}

// The same: where good holds everywhere, nothing is to be done.
pub fn clear_unsure(chart: Chart, good: &[u8], numbers: &mut [u32])
    requires { (length good.now ≡ chart.states) × (length numbers.old ≡ chart.states) }
    ensures { Sured chart.entry.bytes.now chart.entry.states good.now numbers.old numbers.new }
{
    if fill::all_are(1, good) {
        return;
    }
    clear_each(chart, good, numbers);
}
