// A chart's bytes: reading n, m, a label word and an arrow. The refusals stand in `chart_refusals`.
#![tactic(auto)]

ghost use Rattle.std.specs.Prelude.{◌≡◌, ◌+◌, ◌*◌, ◌≤◌, ◌<◌, length};
ghost use Rattle.chart.specs.Bytes.{state_count, arrow_count, label_word, is_no_end, arrow_words};
ghost use Rattle.chart.specs.Shape.{Small, Inside};

// The four words of an arrow.
#[derive(Clone, Copy)]
pub struct ArrowWords {
    pub start: usize,
    pub end: usize,
    pub fewest: u32,
    pub most: u32,
}

pub fn state_count(chart: &[u8]) -> usize
    requires { 9 ≤ length chart.now }
    ensures { (result ≡ state_count chart.now) × (result < 65536) }
{
    words::be16(chart, 5) as usize
}

pub fn arrow_count(chart: &[u8]) -> usize
    requires { 9 ≤ length chart.now }
    ensures { (result ≡ arrow_count chart.now) × (result < 65536) }
{
    words::be16(chart, 7) as usize
}

pub fn label_word(chart: &[u8], s: usize) -> u32
    requires { 9 + 2 * s + 2 ≤ length chart.now }
    ensures { (result ≡ label_word chart.now s) × (result < 65536) }
{
    words::be16(chart, 9 + 2 * s)
}

// The word that says "no end".
pub const NO_END: u32 = 65535;

// The word most says "no end".
pub fn no_end(most: u32) -> bool
    ensures { result ≡ is_no_end most }
{
    most == NO_END
}

// Arrow i of a chart with n states.
pub fn arrow_at(chart: &[u8], n: usize, i: usize) -> ArrowWords
    requires { Inside chart.now n i }
    ensures { (result ≡ arrow_words chart.now i) × Small result }
{
    let at = 9 + 2 * n + 8 * i;
    ArrowWords {
        start: words::be16(chart, at) as usize,
        end: words::be16(chart, at + 2) as usize,
        fewest: words::be16(chart, at + 4),
        most: words::be16(chart, at + 6),
    }
}
