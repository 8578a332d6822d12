// An until, minute by minute, from the operands' marks. Row t is the row beyond meanwhile: what a state makes when the
// bound is behind it.
#![tactic(auto)]

ghost use Rattle.std.specs.Prelude.{◌≡◌, true, ℕ, ◌+◌, ◌*◌, ◌≤◌, ◌<◌, length, eqb};
ghost use Rattle.tctl.specs.Formula.{at_least};
ghost use Rattle.model.specs.Engine.{num};
ghost use Rattle.model.specs.Marks.{mark};
ghost use Rattle.chart.specs.Bytes.{chart_of};
ghost use Rattle.rule.specs.Formula.{bound_of};
ghost use Rattle.fill.specs.Written.{RowWritten};
ghost use Rattle.operands.specs.FromOperands.{FromOperands};
ghost use Rattle.minutes.specs.Untils.{plain, counted};
ghost use Rattle.moves.specs.Moves.{Collected};
ghost use Rattle.minute_rows.specs.Filled.{RowsFilled};
ghost use Rattle.until_minutes.specs.Minutes.{MinutesLent, Says, plain_asked, task_by, makes_by, met_by, mark_of, open_by};
ghost use Rattle.until_minutes.specs.Minutes.{MarksCollectable, WaitReady, Waited};

use arrows::Chart;
use fill::Connective;
use minute_rows::{Asked, Met};
use moves::Ends;
use rule::NodeWords;

// When a bound of at most, or of exactly, is met.
fn met_by(kind: u8) -> Met
    ensures { result ≡ met_by kind }
{
    if kind == rule::AT_MOST {
        Met::Always
    } else {
        Met::AtEnd
    }
}

// Beyond a bound of at most, or of exactly: nobody meets it, and everybody fails it.
fn begin(all: bool, n: usize, t: usize, marks: &mut [u8])
    requires { t * n + n ≤ length marks.old }
    ensures { RowWritten n t (λ s. all) marks.old marks.new }
{
    let beyond = if all { Connective::Yes } else { Connective::No };
    fill::fill(beyond, n, t, t, t, marks);
}

// Yes only where row t says who makes it with no minute left.
fn same(n: usize, t: usize, marks: &[u8], numbers: &[u32]) -> bool
    requires { (t * n + n ≤ length marks.now) × (n ≤ length numbers.now) }
    ensures { result ≡ true → (s : ℕ) → s < n →
        mark n marks.now t s ≡ eqb (num numbers.now s) 2 }
{
    let at = t * n;
    (0..n).all(|s| (marks[at + s] == 1) == (numbers[s] == 2))
}

// The row with no minute left, where a step that takes time leads to what row t says.
fn first_row(
    all: bool,
    chart: Chart,
    t: usize,
    node: NodeWords,
    ends: Ends,
    words: &[u64],
    marks: &[u8],
    numbers: &mut [u32],
)
    requires { WaitReady chart.bytes.now chart.states t node ends words.now marks.now numbers.old }
    ensures { RowsFilled (chart_of chart.entry.bytes.now) chart.entry.states
        (task_by (plain_asked all) chart.entry.states t node marks.now) 1 numbers.new }
{
    let left = node.a * chart.states;
    let right = node.b * chart.states;
    let at = t * chart.states;
    let asked = Asked {
        all,
        met: Met::Always,
    };
    minute_rows::fill_row(
        asked,
        chart,
        0,
        ends,
        words,
        &marks[left..left + chart.states],
        &marks[right..right + chart.states],
        &marks[at..at + chart.states],
        numbers,
    );
}

// One wait: row t becomes who makes it with no minute left. Yes only where it said so before.
fn wait_once(
    all: bool,
    chart: Chart,
    t: usize,
    node: NodeWords,
    ends: Ends,
    words: &[u64],
    marks: &mut [u8],
    numbers: &mut [u32],
) -> bool
    requires { WaitReady chart.bytes.now chart.states t node ends words.now marks.old numbers.old }
    ensures { Waited all chart.entry.bytes.now chart.entry.states t node result
        marks.old marks.new }
{
    first_row(all, chart, t, node, ends, words, marks, numbers);
    let still = same(chart.states, t, marks, numbers);
    fill::fill_limit(true, 1, chart.states, t, &numbers[..chart.states], marks);
    still
}

// The arrows from where an until with no bound is open.
fn collect_open(chart: Chart, t: usize, node: NodeWords, marks: &[u8], words: &mut [u64]) -> Ends
    requires { MarksCollectable chart.bytes.now chart.states chart.arrows t node marks.now
        words.old }
    ensures { Collected chart.entry.bytes.now (open_by chart.entry.states node marks.now) result
        words.new }
{
    let left = node.a * chart.states;
    let right = node.b * chart.states;
    moves::collect(
        true,
        chart,
        &marks[left..left + chart.states],
        &marks[right..right + chart.states],
        words,
    )
}

// The until with no bound: waits until row t says the same, n at most. Row t begins as beyond a bound of at most.
fn plain_row(
    all: bool,
    chart: Chart,
    t: usize,
    node: NodeWords,
    marks: &mut [u8],
    numbers: &mut [u32],
)
    requires { MinutesLent chart.bytes.now chart.states chart.arrows t node marks.old numbers.old
        × Says chart.states t (λ s. all) marks.old }
    ensures { RowWritten chart.entry.states t
        (plain (chart_of chart.entry.bytes.now).arrows chart.entry.states all
        (mark chart.entry.states marks.old node.a) (mark chart.entry.states marks.old node.b)
        chart.entry.states)
        marks.old marks.new }
{
    let mut words = [0; moves::WORDS];
    let ends = collect_open(chart, t, node, marks, &mut words);
    for _k in 0..chart.states {
        if wait_once(all, chart, t, node, ends, &words, marks, numbers) {
            return;
        }
    }
}

// So many rows, with row t as the row beyond.
fn fill_rows(
    asked: Asked,
    count: usize,
    chart: Chart,
    t: usize,
    node: NodeWords,
    marks: &[u8],
    numbers: &mut [u32],
)
    requires { MinutesLent chart.bytes.now chart.states chart.arrows t node marks.now numbers.old
        × (1 ≤ count) × (count ≤ 256) }
    ensures { RowsFilled (chart_of chart.entry.bytes.now) chart.entry.states
        (task_by asked chart.entry.states t node marks.now) count numbers.new }
{
    let left = node.a * chart.states;
    let right = node.b * chart.states;
    let at = t * chart.states;
    minute_rows::fill_rows(
        asked,
        count,
        chart,
        &marks[left..left + chart.states],
        &marks[right..right + chart.states],
        &marks[at..at + chart.states],
        numbers,
    );
}

// Row t by the last of so many rows.
fn last_row(
    asked: Asked,
    count: usize,
    chart: Chart,
    t: usize,
    node: NodeWords,
    marks: &mut [u8],
    numbers: &mut [u32],
)
    requires { MinutesLent chart.bytes.now chart.states chart.arrows t node marks.old numbers.old
        × (1 ≤ count) × (count ≤ 256) }
    ensures { RowWritten chart.entry.states t
        (λ s. mark_of asked.all
        (makes_by asked chart.entry.bytes.now chart.entry.states t node marks.old count s))
        marks.old marks.new }
{
    fill_rows(asked, count, chart, t, node, marks, numbers);
    let last = (count - 1) * chart.states;
    fill::fill_limit(
        !asked.all,
        count as u32,
        chart.states,
        t,
        &numbers[last..last + chart.states],
        marks,
    );
}

// At least c: what is beyond is the until with no bound. Three calls find it, so that the compiler keeps the words of
// `plain_row` in a frame of their own (decision 173).
fn at_least(
    all: bool,
    chart: Chart,
    t: usize,
    node: NodeWords,
    marks: &mut [u8],
    numbers: &mut [u32],
)
    requires minutes_lent { MinutesLent chart.bytes.now chart.states chart.arrows t node
        marks.old numbers.old × Says chart.states t (λ s. all) marks.old }
    requires c_bound { node.c ≤ 255 }
    ensures { FromOperands (counted all (at_least node.c))
        chart.entry.bytes.now chart.entry.states t node
        marks.old marks.new }
{
    if node.c == 0 {
        if all {
            plain_row(true, chart, t, node, marks, numbers);
            fill::fill(Connective::Not, chart.states, t, t, t, marks);
            return;
        }
        plain_row(false, chart, t, node, marks, numbers);
        return;
    }
    plain_row(all, chart, t, node, marks, numbers);
    let asked = Asked {
        all,
        met: Met::Never,
    };
    last_row(asked, node.c as usize, chart, t, node, marks, numbers);
}

// An E-until, or an A-until, by its kind of bound and c.
pub fn until(
    all: bool,
    chart: Chart,
    t: usize,
    node: NodeWords,
    marks: &mut [u8],
    numbers: &mut [u32],
)
    requires { MinutesLent chart.bytes.now chart.states chart.arrows t node marks.old numbers.old
        × (node.c ≤ 255) }
    ensures { FromOperands (counted all (bound_of node.kind node.c))
        chart.entry.bytes.now chart.entry.states t node
        marks.old marks.new }
{
    begin(all, chart.states, t, marks);
    if node.kind == rule::AT_LEAST {
        at_least(all, chart, t, node, marks, numbers);
        return;
    }
    let met = met_by(node.kind);
    let asked = Asked { all, met };
    last_row(asked, node.c as usize + 1, chart, t, node, marks, numbers);
}
