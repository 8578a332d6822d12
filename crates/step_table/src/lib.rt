// The table by steps on lent numbers: a row for each number of steps, and in it a number for each state.
#![tactic(auto)]

ghost use Rattle.std.specs.Prelude.{◌+◌, ◌≤◌, ◌<◌, length};
ghost use Rattle.base.specs.Entries.{Entries};
ghost use Rattle.model.specs.Engine.{num};
ghost use Rattle.step_numbers.specs.Target.{Fair};
ghost use Rattle.step_table.specs.Table.{row_base, row_settled, row_next};
ghost use Rattle.step_table.specs.Table.{Operands, Weights, Light, Relaxed, RelaxedAll, RowLow, Found, TableReady};

use arrows::Chart;
use step_numbers::{Measure, Target};

// How many steps are shown at most.
pub const MOST_STEPS: usize = 256;

// The most arrows of a chart.
const ARROWS: usize = 2048;

// The weights of the arrows, found once and not for each row.
fn fill_weights(measure: Measure, chart: Chart, weights: &mut [u32])
    requires { chart.arrows ≤ length weights.old }
    ensures { Weights measure chart.entry.bytes.now weights.new }
{
    for i in 0..chart.arrows {
        let a = chart.arrow(i);
        weights[i] = step_numbers::weight(measure, a);
    }
}

// The row of no step.
fn first_row(target: Target, n: usize, p: &[u8], q: &[u8], table: &mut [u32])
    requires { Fair target × Operands n p.now q.now × (n ≤ length table.old) }
    ensures { Entries 0 n (row_base target p.now q.now) table.old table.new }
{
    for s in 0..n {
        let v = step_numbers::base(target.all, target.full, p[s] == 1, q[s] == 1);
        table[s] = step_numbers::stored(target.measure, v);
    }
}

// A row of zeros.
fn clear_row(n: usize, at: usize, table: &mut [u32])
    requires { at + n ≤ length table.old }
    ensures { Entries at n (λ s. 0) table.old table.new }
{
    table[at..at + n].fill(0);
}

// Arrow i raises the number of its start in the row after the one at `at`, by its weight and the number of its end in that
// one.
fn relax(chart: Chart, i: usize, weights: &[u32], at: usize, table: &mut [u32])
    requires arrow { i < chart.arrows }
    requires light { Light chart.bytes.now weights.now × RowLow chart.states at table.old }
    ensures { Relaxed chart.entry.bytes.now chart.entry.states i at weights.now
        table.old table.new }
{
    let a = chart.arrow(i);
    let from = at + a.end;
    let to = at + chart.states + a.start;
    let sum = table[from] + weights[i];
    table[to] = table[to].max(sum);
}

// Every arrow raises the number of its start in the row after.
fn relax_all(chart: Chart, weights: &[u32], at: usize, table: &mut [u32])
    requires { Light chart.bytes.now weights.now × RowLow chart.states at table.old }
    ensures { RelaxedAll chart.entry.bytes.now chart.entry.states at weights.now
        table.old table.new }
{
    for i in 0..chart.arrows {
        relax(chart, i, weights, at, table);
    }
}

// The sums of a row become the numbers that they stand for, and 0 at states that it does not go on from.
fn settle_row(target: Target, n: usize, p: &[u8], q: &[u8], at: usize, table: &mut [u32])
    requires { Fair target × Operands n p.now q.now × (at + n ≤ length table.old) }
    ensures { Entries at n (row_settled target p.now q.now at table.old)
        table.old table.new }
{
    for s in 0..n {
        let go = step_numbers::goes(target.all, p[s] == 1, q[s] == 1);
        let to = at + s;
        let v = step_numbers::settled(target.measure, table[to]);
        table[to] = if go { v } else { 0 };
    }
}

// The row of one step more than the row at `at`.
fn next_row(
    target: Target,
    chart: Chart,
    p: &[u8],
    q: &[u8],
    weights: &[u32],
    at: usize,
    table: &mut [u32],
)
    requires operands { Fair target × Operands chart.states p.now q.now }
    requires weights { Weights target.measure chart.bytes.now weights.now
        × RowLow chart.states at table.old }
    ensures { Entries (at + chart.entry.states) chart.entry.states
        (row_next target chart.entry.bytes.now p.now q.now (λ e. num table.old (at + e)))
        table.old table.new }
{
    let next = at + chart.states;
    clear_row(chart.states, next, table);
    relax_all(chart, weights, at, table);
    settle_row(target, chart.states, p, q, next, table);
}

// The same, with the weights of the arrows.
fn search(
    target: Target,
    chart: Chart,
    p: &[u8],
    q: &[u8],
    weights: &[u32],
    s: usize,
    table: &mut [u32],
) -> Option<usize>
    requires { TableReady target chart.bytes.now chart.states chart.arrows p.now q.now s table.old
        × Weights target.measure chart.bytes.now weights.now }
    ensures { Found target chart.entry.bytes.now chart.entry.states p.now q.now s result table.new }
{
    first_row(target, chart.states, p, q, table);
    let need = step_numbers::stored(target.measure, target.need);
    for k in 0..MOST_STEPS {
        if need <= table[k * chart.states + s] {
            return Some(k);
        }
        next_row(target, chart, p, q, weights, k * chart.states, table);
    }
    (need <= table[MOST_STEPS * chart.states + s]).then_some(MOST_STEPS)
}

// The fewest steps from s that are enough, if any are, and the rows up to them, with the weights
// found first.
pub fn fewest_steps(
    target: Target,
    chart: Chart,
    p: &[u8],
    q: &[u8],
    s: usize,
    table: &mut [u32],
) -> Option<usize>
    requires { TableReady target chart.bytes.now chart.states chart.arrows p.now q.now s table.old }
    ensures { Found target chart.entry.bytes.now chart.entry.states p.now q.now s result table.new }
{
    let mut weights = [0; ARROWS];
    fill_weights(target.measure, chart, &mut weights);
    search(target, chart, p, q, &weights, s, table)
}
