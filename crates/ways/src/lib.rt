// The two ways of numbers, what an arrow offers on each, and what a number becomes by it. Minutes that fall are kept as
// what they leave to the top, so that numbers rise on either way.
#![tactic(auto)]

ghost use Rattle.std.specs.Prelude.{◌≡◌, ◌<◌};
ghost use Rattle.chart.specs.Shape.{InRange, Slot};
ghost use Rattle.hints.specs.Values.{radix, sided};
ghost use Rattle.ways.specs.Way.{ceiling_of, leaps_of, Fits, Weighs, Increased, Offers, Beats, Reached};

use chart::ArrowWords;

// What minutes that fall are taken from.
pub const TOP: u32 = 131072;

// How numbers rise: by the most minutes or by a tick, to what that gives or to the cap at once.
#[derive(Clone, Copy)]
pub struct Climb {
    pub ticks: bool,
    pub leap: bool,
    pub cap: u32,
}

// Minutes are lowered, as what they leave to the top is raised, or are raised.
#[derive(Clone, Copy)]
pub enum Way {
    Lower,
    Raise(Climb),
}

// No number rises above it.
#[tactic(auto, unfolding(crate::specs::Way::ceiling_of))]
fn ceiling(way: Way) -> u32
    ensures { result ≡ ceiling_of way }
{
    match way {
        Way::Lower => TOP,
        Way::Raise(climb) => climb.cap,
    }
}

// Whether a number that rises goes to the cap at once.
#[tactic(auto, unfolding(crate::specs::Way::leaps_of))]
fn leaps(way: Way) -> bool
    ensures { result ≡ leaps_of way }
{
    match way {
        Way::Lower => false,
        Way::Raise(climb) => climb.leap,
    }
}

// What an arrow with the word most weighs, no end as more than is asked for. A sum instead of a test, since whether an
// arrow has an end, or takes time, is what no processor foretells.
fn weight_of(ticks: bool, most: u32) -> u64
    requires { InRange most }
    ensures { Weighs ticks most result }
{
    if ticks {
        return (most != 0) as u64;
    }
    most as u64 + chart::no_end(most) as u64
}

// What a number comes to by the word most. From 0 there is no offer: a product instead of a test, for the same reason. Its
// factor is above every weight.
fn increased(ticks: bool, most: u32, there: u32) -> u32
    requires { InRange most × (there < radix) }
    ensures { Increased ticks most there result }
{
    let w = weight_of(ticks, most);
    let v = there as u64;
    (v + w).min(v * 131072) as u32
}

// What an arrow offers its start, from its end's number.
#[tactic(auto, using(crate::proofs::Offer::lower_offers, crate::proofs::Offer::raise_offers))]
pub fn offered(way: Way, a: ArrowWords, there: u32) -> u32
    requires { Slot a × (there < radix) }
    ensures { Offers way a there result }
{
    match way {
        Way::Lower => there.saturating_sub(a.fewest),
        Way::Raise(climb) => increased(climb.ticks, a.most, there),
    }
}

// What an arrow offers its start, from its end's number, is above t. Where minutes fall a sum is compared instead of what
// is left, which takes no test.
#[tactic(auto, using(crate::proofs::Offer::lower_beats, crate::proofs::Offer::raise_offers))]
pub fn beats(way: Way, a: ArrowWords, there: u32, t: u32) -> bool
    requires { Slot a × (there < radix) × (t < sided) }
    ensures { Beats way a there t result }
{
    match way {
        Way::Lower => t + a.fewest < there,
        Way::Raise(climb) => t < increased(climb.ticks, a.most, there),
    }
}

// What a number becomes by the offer v, with its side.
pub fn reached(way: Way, v: u32) -> u32
    requires { Fits way }
    ensures { Reached way v result }
{
    let c = ceiling(way);
    if leaps(way) {
        return c + hints::RADIX;
    }
    if c <= v {
        return c + hints::RADIX;
    }
    v
}
