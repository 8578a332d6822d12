// Which arrow of an overview chart covers an arrow of a detail chart.
#![tactic(auto)]

ghost use Rattle.std.specs.Prelude.{◌≡◌, ◌≤◌, ◌<◌};
ghost use Rattle.chart.specs.Bytes.{arrow_count, arrow_of, most_of};
ghost use Rattle.chart.specs.Shape.{Small, Passed};
ghost use Rattle.cover.specs.Covered.{contains, covers};
ghost use Rattle.cover.specs.Search.{ends_word, CoverBetween, CoveredBy};

use chart::ArrowWords;

// The word by, as a most, contains the word most: "no end" contains every most, and no other contains it.
fn contains_most(by: u32, most: u32) -> bool
    ensures { result ≡ contains (most_of by) (most_of most) }
{
    if chart::no_end(by) {
        return true;
    }
    if chart::no_end(most) {
        return false;
    }
    most <= by
}

// The numbers of two states as one, the first one's high byte lowest: of an arrow's bytes, it is read by one load.
fn ends_word(start: usize, end: usize) -> u32
    requires { (start < 65536) × (end < 65536) }
    ensures { result ≡ ends_word start end }
{
    let x = start as u32;
    let y = end as u32;
    x / 256 + (x % 256 + (y / 256 + y % 256 * 256) * 256) * 256
}

// The overview arrow b covers want: a detail arrow whose ends are the overview states that they stand for.
fn covers_arrow(want: ArrowWords, b: ArrowWords) -> bool
    requires { Small want × Small b }
    ensures { result ≡ covers (arrow_of want) (arrow_of b) }
{
    if ends_word(b.start, b.end) != ends_word(want.start, want.end) {
        return false;
    }
    if want.fewest < b.fewest {
        return false;
    }
    contains_most(b.most, want.most)
}

// The first overview arrow from lo on and before hi that covers want.
fn cover_between(overview: &[u8], k: usize, lo: usize, hi: usize, want: ArrowWords) -> Option<usize>
    requires { let l = arrow_count overview.now in Passed overview.now k l × (lo ≤ hi) × (hi ≤ l) × Small want }
    ensures { CoverBetween overview.now (arrow_of want) lo hi result }
{
    for j in lo..hi {
        let b = chart::arrow_at(overview, k, j);
        if covers_arrow(want, b) {
            return Some(j);
        }
    }
    None
}

// An overview arrow that covers want, if one does. The search begins one before the arrow near, the last one's
// answer, and goes round: in charts listed alike, or one against the other, it takes a step or three.
pub fn covering_arrow(
    overview: &[u8],
    k: usize,
    l: usize,
    near: usize,
    want: ArrowWords,
) -> Option<usize>
    requires { Passed overview.now k l × (near ≤ l) × Small want }
    ensures { CoveredBy overview.now (arrow_of want) l result }
{
    let start = near.saturating_sub(1);
    let after = cover_between(overview, k, start, l, want);
    after.or_else(|| cover_between(overview, k, 0, start, want))
}
