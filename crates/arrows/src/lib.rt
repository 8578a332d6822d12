// A chart that passed, and its arrows, their states by the low bytes.
#![tactic(auto)]

ghost use Rattle.std.specs.Prelude.{◌≡◌, ◌+◌, ◌<◌, length};
ghost use Rattle.words.specs.Word.{word};
ghost use Rattle.chart.specs.Bytes.{arrow_count, arrow_words};
ghost use Rattle.chart.specs.Shape.{Small, Inside, Passed};
ghost use Rattle.arrows.specs.Read.{Low, Joined};

use chart::ArrowWords;

// The state at a place, by its low byte.
fn state_at(chart: &[u8], at: usize) -> usize
    requires { (at + 1 < length chart.now) × (word chart.now at < 256) }
    ensures { result ≡ word chart.now at }
{
    words::wide(chart[at + 1]) as usize
}

// Arrow i, its states by their low bytes.
fn low_arrow(chart: &[u8], n: usize, i: usize) -> ArrowWords
    requires { Inside chart.now n i × Low (arrow_words chart.now i) }
    ensures { (result ≡ arrow_words chart.now i) × Small result }
{
    let at = 9 + 2 * n + 8 * i;
    ArrowWords {
        start: state_at(chart, at),
        end: state_at(chart, at + 2),
        fewest: words::be16(chart, at + 4),
        most: words::be16(chart, at + 6),
    }
}

// The bytes of a chart that passed, with how many states and arrows it has.
#[derive(Clone, Copy)]
pub struct Chart<'a> {
    pub bytes: &'a [u8],
    pub states: usize,
    pub arrows: usize,
    pub ghost passed: { Passed bytes.now states arrows },
}

impl<'a> Chart<'a> {
    // Arrow i.
    pub fn arrow(self, i: usize) -> ArrowWords
        requires { i < self.arrows }
        ensures { (result ≡ arrow_words self.entry.bytes.now i) × Joined self.entry.states result }
    {
        low_arrow(self.bytes, self.states, i)
    }
}
