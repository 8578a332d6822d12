// The numbers of the table by steps: what is looked for, and how numbers are stored.
#![tactic(auto)]

ghost use Rattle.std.specs.Prelude.{◌≡◌, ◌≤◌};
ghost use Rattle.chart.specs.Bytes.{arrow_of, most_of};
ghost use Rattle.chart.specs.Shape.{Slot};
ghost use Rattle.step_numbers.specs.Target.{highest, go_of, base_of, Capped};
ghost use Rattle.step_numbers.specs.Stored.{stored_of, heft, weight_of, settled_of};

use chart::ArrowWords;

// What stored numbers of greatest minutes stand above: more than any weight.
const LIVE: u32 = 262144;

// The least minutes, or the greatest up to a cap.
#[derive(Clone, Copy)]
pub enum Measure {
    Least,
    Greatest(u32),
}

// What is looked for, by the marks of two operands: of an A-until or an E-until, how minutes count, the number of a last
// state that ends it (of an A-until where neither operand holds, of an E-until where the second does), and the number
// that is enough.
#[derive(Clone, Copy)]
pub struct Target {
    pub all: bool,
    pub measure: Measure,
    pub full: u32,
    pub need: u32,
}

// Whether it goes on from a state with the marks p and q.
pub fn goes(all: bool, p: bool, q: bool) -> bool
    ensures { result ≡ go_of all p q }
{
    if all {
        return p & !q;
    }
    p
}

// The number of a last state with the marks p and q.
pub fn base(all: bool, full: u32, p: bool, q: bool) -> u32
    ensures { result ≡ base_of all full p q }
{
    if all {
        if p | q {
            return 1;
        }
        return full;
    }
    if q {
        return full;
    }
    0
}

// The number v as it is stored: of greatest minutes one of 1 at least above `LIVE`.
pub fn stored(measure: Measure, v: u32) -> u32
    requires { v ≤ highest }
    ensures { result ≡ stored_of measure v }
{
    match measure {
        Measure::Greatest(_) if 0 < v => LIVE + v,
        _ => v,
    }
}

// What the most adds.
fn heft_of(most: u32) -> u32
    ensures { result ≡ heft (most_of most) }
{
    if chart::no_end(most) {
        return 65537;
    }
    most
}

// What an arrow adds to a stored number.
pub fn weight(measure: Measure, a: ArrowWords) -> u32
    requires { Slot a }
    ensures { result ≡ weight_of measure (arrow_of a) }
{
    match measure {
        Measure::Least => 65535 - a.fewest,
        Measure::Greatest(_) => heft_of(a.most),
    }
}

// The number that a sum stands for, as it is stored: without 65,535, or up to the cap.
pub fn settled(measure: Measure, v: u32) -> u32
    requires { Capped measure }
    ensures { result ≡ settled_of measure v }
{
    match measure {
        Measure::Least => v.saturating_sub(65535),
        Measure::Greatest(_) if v <= LIVE => 0,
        Measure::Greatest(cap) => v.min(LIVE + cap),
    }
}
