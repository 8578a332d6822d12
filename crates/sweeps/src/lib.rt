// Sweeps: all arrows are tried, from the last to the first.
#![tactic(auto)]

ghost use Rattle.std.specs.Prelude.{◌≤◌};
ghost use Rattle.visits.specs.Moves.{Given};
ghost use Rattle.sweeps.specs.Sweep.{after, Quiet, Sweeps};

use arrows::Chart;
use ways::Way;

// The last arrow from the floor on and before arrow k that would raise a number. A loop of its own, for the arrows that
// change nothing are most of them.
#[inline(never)]
fn last_raising(way: Way, chart: Chart, numbers: &[u32], floor: usize, k: usize) -> Option<usize>
    requires { Given way chart.bytes.now chart.states chart.arrows numbers.now × (floor ≤ k)
        × (k ≤ chart.arrows) }
    ensures { Quiet way chart.entry.bytes.now floor (after floor result) k numbers.now }
{
    for i in (floor..k).rev() {
        if visits::raises(way, chart, i, numbers) {
            return Some(i);
        }
    }
    None
}

// The arrows are tried, from the last to the first. Those before the floor would raise no number, and are tried if
// another does. Answers the last arrow that raised one.
pub fn sweep(way: Way, floor: usize, chart: Chart, numbers: &mut [u32]) -> Option<usize>
    requires { Given way chart.bytes.now chart.states chart.arrows numbers.old
        × (floor ≤ chart.arrows) }
    ensures { Sweeps way chart.entry.bytes.now chart.entry.arrows floor result
        numbers.old numbers.new }
{
    let mut last = None;
    let mut next = last_raising(way, chart, numbers, floor, chart.arrows);
    while let Some(i) = next {
        if visits::renew(way, chart, i, numbers) {
            last = Some(i);
        }
        next = last_raising(way, chart, numbers, 0, i);
    }
    last
}
