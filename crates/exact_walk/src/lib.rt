// The walk by the fewest steps for each minute left, written as the run that is shown.
#![tactic(auto)]

ghost use Rattle.std.specs.Prelude.{◌≡◌, ◌<◌};
ghost use Rattle.std.proofs.Math.Option.{some};
ghost use Rattle.append.specs.Piece.{Appended};
ghost use Rattle.chart.specs.Bytes.{arrow_of, chart_of};
ghost use Rattle.arrow_links.specs.Linked.{Linked};
ghost use Rattle.shown.specs.Exact.{Onward, first_minutes, serves};
ghost use Rattle.shown.specs.Steps.{first_arrow};
ghost use Rattle.run_walk.specs.RunBytes.{run_bytes};
ghost use Rattle.exact_walk.specs.Walk.{steps_in, InRows, FirstMinutes, walk_in, Walkable};

use arrows::Chart;
use chart::ArrowWords;

// The first duration, of so many minutes left, in which the arrow leads to `left` steps.
fn first_minutes(a: ArrowWords, left: u32, minutes: usize, n: usize, table: &[u32]) -> Option<usize>
    requires { (a.end < n) × InRows n minutes table.now }
    ensures { FirstMinutes (arrow_of a) left minutes n table.now result }
{
    let last = minutes.min(a.most as usize);
    // not `..=`: that loop ends in two places
    for d in a.fewest as usize..last + 1 {
        let row = (minutes - d) * n;
        if table[row + a.end] == left {
            return Some(d);
        }
    }
    None
}

// The lowest arrow from s that leads to `left` steps, and the first of its minutes that do.
fn next_arrow(
    chart: Chart,
    firsts: &[u32],
    nexts: &[u32],
    left: u32,
    minutes: usize,
    s: usize,
    table: &[u32],
) -> (ArrowWords, usize)
    requires { Linked chart.bytes.now chart.states chart.arrows 0 firsts.now nexts.now
        × (s < chart.states) × InRows chart.states minutes table.now
        × Onward (chart_of chart.bytes.now).arrows
        (steps_in chart.states table.now left) minutes s }
    ensures arrow { arrow_of result.0 ≡
        first_arrow (serves (steps_in chart.entry.states table.now left) minutes s)
        (chart_of chart.entry.bytes.now).arrows }
    ensures end { result.0.end < chart.entry.states }
    ensures minutes { first_minutes (steps_in chart.entry.states table.now left) minutes
        (arrow_of result.0) ≡ some result.1 }
{
    let mut i = firsts[s] as usize;
    while i < chart.arrows {
        let a = chart.arrow(i);
        if let Some(d) = first_minutes(a, left, minutes, chart.states, table) {
            return (a, d);
        }
        i = nexts[i] as usize;
    }
    unreachable!()
}

// The walk of k steps and c minutes from s, as bytes, by the links of the arrows.
fn follow(
    chart: Chart,
    firsts: &[u32],
    nexts: &[u32],
    c: usize,
    k: u32,
    s: usize,
    table: &[u32],
    out: &mut [u8],
) -> usize
    requires { Walkable chart.bytes.now chart.states chart.arrows c k s table.now out.old ×
        Linked chart.bytes.now chart.states chart.arrows 0 firsts.now nexts.now }
    ensures { Appended 0
        (run_bytes (walk_in chart.entry.bytes.now chart.entry.states table.now k c s)) result
        out.old out.new }
{
    let mut state = s;
    let mut minutes = c;
    let mut end = 0;
    for left in (0..k).rev() {
        let (a, d) = next_arrow(chart, firsts, nexts, left, minutes, state, table);
        end = run_walk::put_position(state, d as u32, end, out);
        minutes -= d;
        state = a.end;
    }
    run_walk::put_position(state, 0, end, out)
}

// The walk of k steps and c minutes from s, as bytes.
pub fn write_walk(chart: Chart, c: usize, k: u32, s: usize, table: &[u32], out: &mut [u8]) -> usize
    requires { Walkable chart.bytes.now chart.states chart.arrows c k s table.now out.old }
    ensures { Appended 0
        (run_bytes (walk_in chart.entry.bytes.now chart.entry.states table.now k c s)) result
        out.old out.new }
{
    let mut firsts = [0; arrow_links::STATES];
    let mut nexts = [0; arrow_links::ARROWS];
    arrow_links::link(chart, &mut firsts, &mut nexts);
    follow(chart, &firsts, &nexts, c, k, s, table, out)
}
