// The chart reader: it holds the lent bytes of a chart and the number of the next arrow. What it hands out is found by
// `step`, which takes a plain slice and a number; the functions above it are thin.
#![tactic(auto)]

ghost use Rattle.std.specs.Prelude.{◌≡◌, eqb};
ghost use Rattle.chart.specs.Refusals.{chart_refusal};
ghost use Rattle.call_reader.specs.Reading.{handed, step_of, moved};

use chart::ArrowWords;

#[derive(Drop)]
pub struct ChartReader<'a> {
    pub chart: &'a [u8],
    pub number: usize,
}

// What a reader hands out, an arrow or none once it is finished, and the number of the next arrow after that.
#[derive(Clone, Copy)]
pub struct Stepped {
    pub handed: Option<ArrowWords>,
    pub number: usize,
}

// The chart passes checks 1 to 9.
#[tactic(auto, using(outcome::proofs::First::fault_number))]
fn passes(chart: &[u8]) -> bool
    ensures { result ≡ eqb (chart_refusal chart.now).number 0 }
{
    match chart_refusals::chart_refusal(chart) {
        Ok(()) => true,
        Err(_) => false,
    }
}

// The work: what a reader of these bytes at this number does.
pub fn step(chart: &[u8], number: usize) -> Stepped
    ensures { result ≡ step_of chart.now number }
{
    if passes(chart) {
        if number < chart::arrow_count(chart) {
            let arrow = chart::arrow_at(chart, chart::state_count(chart), number);
            return Stepped {
                handed: Some(arrow),
                number: number + 1,
            };
        }
    }
    Stepped {
        handed: None,
        number,
    }
}

// A reader of these bytes, at this number.
pub fn new<'a>(chart: &'a [u8], number: usize) -> ChartReader<'a>
    ensures { (result.chart ≡ chart.entry) × (result.number ≡ number) }
{
    ChartReader { chart, number }
}

// What the reader hands out next; it stays where it is.
pub fn peek<'a>(r: ChartReader<'a>) -> Option<ArrowWords>
    ensures { result ≡ handed r.entry.chart.now r.entry.number }
{
    step(r.chart, r.number).handed
}

// Hands out an arrow and moves on to the next, or is finished and stays.
pub fn next<'s, 'a>(r: &'s mut ChartReader<'a>) -> Option<ArrowWords>
    ensures { (result ≡ handed r.old.chart.now r.old.number) ×
        (r.new ≡ moved r.old) }
{
    let stepped = step(r.chart, r.number);
    r.number = stepped.number;
    stepped.handed
}

// What a reader of these bytes at this number hands out. Its parameters are plain.
pub fn hand_out(chart: &[u8], number: usize) -> Option<ArrowWords>
    ensures { result ≡ handed chart.now number }
{
    peek(new(chart, number))
}
