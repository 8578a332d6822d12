// Map check: whether a detail chart is one under an overview chart, by a map.
#![tactic(auto)]

ghost use Rattle.std.specs.Prelude.{◌≡◌, [], ◌∷◌, ◌+◌, ◌*◌, ◌≤◌, length};
ghost use Rattle.outcome.specs.Answer.{answer};
ghost use Rattle.outcome.specs.Refusal.{first};
ghost use Rattle.chart.specs.Bytes.{arrow_count, arrow_of};
ghost use Rattle.chart.specs.Refusals.{chart_refusal};
ghost use Rattle.chart.specs.Shape.{Small, Passed};
ghost use Rattle.map.specs.Bytes.{entry};
ghost use Rattle.cover.specs.Covered.{mapped_arrow};
ghost use Rattle.call_map.specs.Refusals.{map_table, map_refusal};
ghost use Rattle.call_map.specs.Rows.{Sized, Named, Mapping, label_row, cover_row, last_rows, mapped_rows};

use chart::ArrowWords;
use outcome::{Fault, Outcome, Refusal};

// How many states and arrows a chart has.
#[derive(Clone, Copy)]
pub struct Sizes {
    pub states: usize,
    pub arrows: usize,
}

fn sizes_of(chart: &[u8]) -> Sizes
    requires { (chart_refusal chart.now).number ≡ 0 }
    ensures { Sized chart.now result }
{
    Sizes {
        states: chart::state_count(chart),
        arrows: chart::arrow_count(chart),
    }
}

// Row 22, of n detail states.
fn label_refusal(detail: &[u8], n: usize, overview: &[u8], map: &[u8]) -> Result<(), Refusal>
    requires { Passed detail.now n (arrow_count detail.now) × Named overview.now map.now n }
    ensures { answer result ≡ first (label_row detail.now overview.now map.now ∷ []) }
{
    for d in 0..n {
        let own = chart::label_word(detail, d);
        let e = map::entry_at(map, d);
        if own != chart::label_word(overview, e) {
            return Err(Fault::LabelsDiffer.at(d));
        }
    }
    Ok(())
}

// The arrow a between the states that its ends stand for.
fn mapped_arrow(map: &[u8], a: ArrowWords) -> ArrowWords
    requires { (9 + 2 * a.start ≤ length map.now) × (9 + 2 * a.end ≤ length map.now) × Small a }
    ensures { (arrow_of result ≡ mapped_arrow (entry map.now) (arrow_of a)) × Small result }
{
    ArrowWords {
        start: map::entry_at(map, a.start),
        end: map::entry_at(map, a.end),
        fewest: a.fewest,
        most: a.most,
    }
}

// Row 23.
fn cover_refusal(
    detail: &[u8],
    lower: Sizes,
    overview: &[u8],
    upper: Sizes,
    map: &[u8],
) -> Result<(), Refusal>
    requires { Mapping detail.now lower overview.now upper map.now }
    ensures { answer result ≡ first (cover_row detail.now overview.now map.now ∷ []) }
{
    let mut near = 0;
    for i in 0..lower.arrows {
        let a = chart::arrow_at(detail, lower.states, i);
        let want = mapped_arrow(map, a);
        match cover::covering_arrow(overview, upper.states, upper.arrows, near, want) {
            Some(j) => near = j,
            None => return Err(Fault::NotCovered.at(i)),
        }
    }
    Ok(())
}

// Rows 22 and 23.
#[tactic(auto, unfolding(outcome::specs::Refusal::first))]
fn last_refusal(
    detail: &[u8],
    lower: Sizes,
    overview: &[u8],
    upper: Sizes,
    map: &[u8],
) -> Result<(), Refusal>
    requires { Mapping detail.now lower overview.now upper map.now }
    ensures { answer result ≡ first (last_rows detail.now overview.now map.now) }
{
    label_refusal(detail, lower.states, overview, map)?;
    cover_refusal(detail, lower, overview, upper, map)
}

// Rows 21 to 23, of a map in its format.
fn mapped_refusal(
    detail: &[u8],
    lower: Sizes,
    overview: &[u8],
    upper: Sizes,
    map: &[u8],
) -> Result<(), Refusal>
    requires { Sized detail.now lower × Sized overview.now upper × (7 + 2 * lower.states ≤ length map.now) }
    ensures { answer result ≡ first (mapped_rows detail.now overview.now map.now) }
{
    map::entry_refusal(map, lower.states, upper.states)?;
    last_refusal(detail, lower, overview, upper, map)
}

// Rows 20 to 23, of charts that pass checks 1 to 9.
fn map_refusal(detail: &[u8], overview: &[u8], map: &[u8]) -> Result<(), Refusal>
    requires { ((chart_refusal detail.now).number ≡ 0) × ((chart_refusal overview.now).number ≡ 0) }
    ensures { answer result ≡ first (map_table detail.now overview.now map.now) }
{
    let lower = sizes_of(detail);
    let upper = sizes_of(overview);
    map::form_refusal(map, lower.states)?;
    mapped_refusal(detail, lower, overview, upper, map)
}

// The first row of the table that is met. The overview's are a chart's own, with its entry.
pub fn map_check(detail: &[u8], overview: &[u8], map: &[u8]) -> Outcome
    ensures { result ≡ map_refusal detail.now overview.now map.now }
{
    if let Err(own) = loops::accepted_refusal(detail) {
        return Outcome::from(own);
    }
    if let Err(own) = loops::accepted_refusal(overview) {
        return outcome::of_overview(Outcome::from(own));
    }
    Outcome::from(map_refusal(detail, overview, map))
}
