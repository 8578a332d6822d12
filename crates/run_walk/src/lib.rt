// The walk down the table by steps, written as the run that is shown.
#![tactic(auto)]

ghost use Rattle.std.specs.Prelude.{◌≡◌, ◌<◌};
ghost use Rattle.append.specs.Piece.{Room, Appended};
ghost use Rattle.chart.specs.Bytes.{arrow_of, most_of};
ghost use Rattle.shown.specs.Shown.{place};
ghost use Rattle.shown.specs.Steps.{longest_of};
ghost use Rattle.step_table.specs.Table.{RowLow};
ghost use Rattle.arrow_links.specs.Linked.{Linked};
ghost use Rattle.step_numbers.specs.Target.{pick_of, Capped};
ghost use Rattle.run_walk.specs.RunBytes.{position_bytes, run_bytes};
ghost use Rattle.run_walk.specs.Walk.{tight_arrow, walk_on, Walkable};

use arrows::Chart;
use chart::ArrowWords;
use step_numbers::Measure;

// The most minutes of a slot; with no end as many as the cap.
fn longest_of(cap: u32, fewest: u32, most: u32) -> u32
    ensures { result ≡ longest_of cap fewest (most_of most) }
{
    if chart::no_end(most) {
        return cap.max(fewest);
    }
    most
}

// The minutes that an arrow is taken in.
fn pick(measure: Measure, a: ArrowWords) -> u32
    ensures { result ≡ pick_of measure (arrow_of a) }
{
    match measure {
        Measure::Least => a.fewest,
        Measure::Greatest(cap) => longest_of(cap, a.fewest, a.most),
    }
}

// One position: the state in two bytes, the duration in four.
pub fn put_position(state: usize, duration: u32, at: usize, out: &mut [u8]) -> usize
    requires { (state < 65536) × Room at (position_bytes (place state duration)) out.old }
    ensures { Appended at (position_bytes (place state duration)) result out.old out.new }
{
    let end = append::put_be16(state as u32, at, out);
    append::put_be32(duration, end, out)
}

// The lowest arrow from s that makes just the number of s in the row after the one at `at`; 0 if none does.
fn tight_arrow(
    measure: Measure,
    chart: Chart,
    firsts: &[u32],
    nexts: &[u32],
    at: usize,
    s: usize,
    table: &[u32],
) -> usize
    requires { Linked chart.bytes.now chart.states chart.arrows 0 firsts.now nexts.now
        × Capped measure × RowLow chart.states at table.now × (s < chart.states) }
    ensures { (result ≡ tight_arrow measure chart.entry.bytes.now chart.entry.states table.now at s)
        × (result < chart.entry.arrows) }
{
    let number = table[at + chart.states + s];
    let mut i = firsts[s] as usize;
    while i < chart.arrows {
        let a = chart.arrow(i);
        let end = a.end;
        let sum = table[at + end] + step_numbers::weight(measure, a);
        if step_numbers::settled(measure, sum) == number {
            return i;
        }
        i = nexts[i] as usize;
    }
    0
}

// The walk of k steps from s, as bytes, by the links of the arrows.
fn follow(
    measure: Measure,
    chart: Chart,
    firsts: &[u32],
    nexts: &[u32],
    k: usize,
    s: usize,
    table: &[u32],
    out: &mut [u8],
) -> usize
    requires { Walkable measure chart.bytes.now chart.states chart.arrows k s table.now out.old ×
        Linked chart.bytes.now chart.states chart.arrows 0 firsts.now nexts.now }
    ensures { Appended 0
        (run_bytes (walk_on measure chart.entry.bytes.now chart.entry.states table.now k s)) result
        out.old out.new }
{
    let mut state = s;
    let mut end = 0;
    for left in (0..k).rev() {
        let i = tight_arrow(
            measure,
            chart,
            firsts,
            nexts,
            left * chart.states,
            state,
            table,
        );
        let a = chart.arrow(i);
        end = put_position(state, pick(measure, a), end, out);
        state = a.end;
    }
    put_position(state, 0, end, out)
}

// The walk of k steps from s, as bytes.
pub fn write_walk(
    measure: Measure,
    chart: Chart,
    k: usize,
    s: usize,
    table: &[u32],
    out: &mut [u8],
) -> usize
    requires { Walkable measure chart.bytes.now chart.states chart.arrows k s table.now out.old }
    ensures { Appended 0
        (run_bytes (walk_on measure chart.entry.bytes.now chart.entry.states table.now k s)) result
        out.old out.new }
{
    let mut firsts = [0; arrow_links::STATES];
    let mut nexts = [0; arrow_links::ARROWS];
    arrow_links::link(chart, &mut firsts, &mut nexts);
    follow(measure, chart, &firsts, &nexts, k, s, table, out)
}
