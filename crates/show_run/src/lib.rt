// The run that shows a mark: what is looked for at its node, the search in a lent table, and the walk that is written.
#![tactic(auto)]

ghost use Rattle.std.specs.Prelude.{◌≡◌, ◌<◌};
ghost use Rattle.show_refusals.specs.Fits.{table_cleared};
ghost use Rattle.model.specs.Marks.{flag};
ghost use Rattle.shown.specs.Search.{by_steps, by_minutes};
ghost use Rattle.step_numbers.specs.Target.{quest_for};
ghost use Rattle.step_table.specs.Table.{TableReady};
ghost use Rattle.exact_table.specs.Rows.{StepsReady};
ghost use Rattle.show_run.specs.Run.{target_of, search_in, Searchable, Ran};

use arrows::Chart;
use rule::NodeWords;
use step_numbers::{Measure, Target};

// What is looked for at a node that can be shown, but for "exactly c".
fn target_of(w: NodeWords) -> Target
    requires { w.c < 65536 }
    ensures { result ≡ target_of w }
{
    if w.operation == rule::ALL_UNTIL {
        let cap = w.c + 2;
        return Target {
            all: true,
            measure: Measure::Greatest(cap),
            full: cap,
            need: cap,
        };
    }
    if w.kind == rule::AT_MOST {
        return Target {
            all: false,
            measure: Measure::Least,
            full: w.c + 1,
            need: 1,
        };
    }
    let cap = w.c + 1;
    Target {
        all: false,
        measure: Measure::Greatest(cap),
        full: 1,
        need: cap,
    }
}

// The shortest run is found by steps and written if it fits: how many bytes it takes.
fn find_by_steps(
    target: Target,
    chart: Chart,
    p: &[u8],
    q: &[u8],
    state: usize,
    table: &mut [u32],
    output: &mut [u8],
) -> Option<usize>
    requires { TableReady target chart.bytes.now chart.states chart.arrows p.now q.now state
        table.old }
    ensures { Ran chart.entry.bytes.now (by_steps (quest_for target (flag p.now) (flag q.now)))
        state result output.old output.new }
{
    let k = step_table::fewest_steps(target, chart, p, q, state, table)?;
    if output.len() < 6 * (k + 1) {
        return None;
    }
    let measure = target.measure;
    Some(run_walk::write_walk(measure, chart, k, state, table, output))
}

// The same by minutes, for an E-until, exactly c.
fn find_by_minutes(
    chart: Chart,
    c: usize,
    p: &[u8],
    q: &[u8],
    state: usize,
    table: &mut [u32],
    output: &mut [u8],
) -> Option<usize>
    requires { StepsReady chart.bytes.now chart.states chart.arrows c p.now q.now table.old
        × (state < chart.states) }
    ensures { Ran chart.entry.bytes.now (by_minutes c (flag p.now) (flag q.now)) state result
        output.old output.new }
{
    exact_table::fill_steps(chart, c, p, q, table);
    let k = table[c * chart.states + state];
    if step_table::MOST_STEPS < k as usize {
        return None;
    }
    if output.len() < 6 * (k as usize + 1) {
        return None;
    }
    Some(exact_walk::write_walk(chart, c, k, state, table, output))
}

// The same as the node asks, by the rows of its operands.
fn find_run(
    chart: Chart,
    w: NodeWords,
    marks: &[u8],
    state: usize,
    table: &mut [u32],
    output: &mut [u8],
) -> Option<usize>
    requires { Searchable chart.bytes.now chart.states chart.arrows w marks.now state table.old }
    ensures { Ran chart.entry.bytes.now (search_in chart.entry.states marks.now w) state result
        output.old output.new }
{
    let left = w.a * chart.states;
    let right = w.b * chart.states;
    let p = &marks[left..left + chart.states];
    let q = &marks[right..right + chart.states];
    if w.kind == rule::EXACTLY {
        return find_by_minutes(chart, w.c as usize, p, q, state, table, output);
    }
    find_by_steps(target_of(w), chart, p, q, state, table, output)
}

// The same in the first numbers of scratch, which are cleared afterwards.
pub fn write_run(
    chart: Chart,
    w: NodeWords,
    marks: &[u8],
    state: usize,
    scratch: &mut [u32],
    output: &mut [u8],
) -> Option<usize>
    requires { Searchable chart.bytes.now chart.states chart.arrows w marks.now state scratch.old }
    ensures { Ran chart.entry.bytes.now (search_in chart.entry.states marks.now w) state result
        output.old output.new × (scratch.new ≡ table_cleared chart.entry.states scratch.old) }
{
    let size = show_refusals::table_size(chart.states);
    let written = find_run(chart, w, marks, state, &mut scratch[..size], output);
    loops::clear(&mut scratch[..size]);
    written
}
