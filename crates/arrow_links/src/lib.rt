// The arrows of each state, linked: its lowest, and after each arrow the next from the same state.
#![tactic(auto)]

ghost use Rattle.std.specs.Prelude.{◌≤◌, length};
ghost use Rattle.base.specs.Entries.{Entries};
ghost use Rattle.arrow_links.specs.Linked.{Linked};

use arrows::Chart;

// The most states and the most arrows of a chart.
pub const STATES: usize = 256;

pub const ARROWS: usize = 2048;

// No arrow from any state: m, which is no arrow's number.
fn no_arrows(n: usize, m: u32, firsts: &mut [u32])
    requires { n ≤ length firsts.old }
    ensures { Entries 0 n (λ s. m) firsts.old firsts.new }
{
    firsts[..n].fill(m);
}

// From the last arrow to the first, so that each is put before those above it.
pub fn link(chart: Chart, firsts: &mut [u32], nexts: &mut [u32])
    requires { (chart.states ≤ length firsts.old) × (chart.arrows ≤ length nexts.old) }
    ensures { Linked chart.entry.bytes.now chart.entry.states chart.entry.arrows 0 firsts.new
        nexts.new }
{
    no_arrows(chart.states, chart.arrows as u32, firsts);
    for i in (0..chart.arrows).rev() {
        let a = chart.arrow(i);
        let s = a.start;
        nexts[i] = firsts[s];
        firsts[s] = i as u32;
    }
}
