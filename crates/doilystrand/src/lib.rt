// The open calls for C and Rust, with the promises that they have themselves. What C has no form for crosses as
// numbers (`coded`), and of a row its place instead of the part itself.
#![tactic(auto)]

ghost use Rattle.std.specs.Prelude.{◌≡◌};
ghost use Rattle.call_row.specs.Row.{place_of};
ghost use Rattle.call_map.specs.Refusals.{map_refusal};
ghost use Rattle.call_check.specs.Check.{Checked};
ghost use Rattle.call_count.specs.Count.{Counted};
ghost use Rattle.call_show.specs.Show.{Showed};
ghost use Rattle.call_read_rule.specs.Read.{ReadAs};
ghost use Rattle.call_write_rule.specs.Write.{Wrote};
ghost use Rattle.call_reader.specs.Reading.{handed};
ghost use Rattle.coded.specs.Coded.{Coded, size_of, coded_arrow};
ghost use Rattle.refusal_words.specs.Words.{words_of};

use call_row::Place;
use coded::{CodedAnswer, CodedArrow};
use outcome::{Outcome, Written};
use refusal_words::Words;

#[unsafe(no_mangle)]
pub extern "C" fn doilystrand_check(
    chart: &[u8],
    rule: &[u8],
    marks: &mut [u8],
    scratch: &mut [u32],
) -> Outcome
    ensures { Checked chart.now rule.now marks.old scratch.old
        result marks.new scratch.new }
{
    call_check::check(chart, rule, marks, scratch)
}

#[unsafe(no_mangle)]
pub extern "C" fn doilystrand_count(
    chart: &[u8],
    rule: &[u8],
    marks: &mut [u8],
    scratch: &mut [u32],
) -> Outcome
    ensures { Counted chart.now rule.now marks.old scratch.old
        result marks.new scratch.new }
{
    call_count::count(chart, rule, marks, scratch)
}

#[unsafe(no_mangle)]
pub extern "C" fn doilystrand_show(
    chart: &[u8],
    rule: &[u8],
    marks: &mut [u8],
    scratch: &mut [u32],
    node: usize,
    state: usize,
    output: &mut [u8],
) -> Written
    ensures { Showed chart.now rule.now marks.old scratch.old node state
        output.old result marks.new scratch.new output.new }
{
    call_show::show(chart, rule, marks, scratch, node, state, output)
}

#[unsafe(no_mangle)]
pub extern "C" fn doilystrand_kind_of_rule(rule: &[u8]) -> CodedAnswer
    ensures { Coded rule.now result }
{
    call_kind::kind_of_rule(rule).into()
}

#[unsafe(no_mangle)]
pub extern "C" fn doilystrand_read_rule(text: &[u8], output: &mut [u8]) -> Written
    ensures { ReadAs text.now output.old result output.new }
{
    call_read_rule::read_rule(text, output)
}

#[unsafe(no_mangle)]
pub extern "C" fn doilystrand_write_rule(rule: &[u8], output: &mut [u8]) -> Written
    ensures { Wrote rule.now output.old result output.new }
{
    call_write_rule::write_rule(rule, output)
}

#[unsafe(no_mangle)]
pub extern "C" fn doilystrand_map_check(detail: &[u8], overview: &[u8], map: &[u8]) -> Outcome
    ensures { result ≡ map_refusal detail.now overview.now map.now }
{
    call_map::map_check(detail, overview, map)
}

// Row's index form: the place of row t in the chosen table, of which only the length counts. The choice is true for
// the detail.
#[unsafe(no_mangle)]
pub extern "C" fn doilystrand_row(
    overview: usize,
    detail: usize,
    choice: bool,
    n: usize,
    t: usize,
) -> Place
    ensures { result ≡ place_of (size_of choice overview detail) n t }
{
    if choice {
        return call_row::row_place(detail, n, t);
    }
    call_row::row_place(overview, n, t)
}

// What a chart reader of these bytes at this number hands out.
#[unsafe(no_mangle)]
pub extern "C" fn doilystrand_arrow(chart: &[u8], number: usize) -> CodedArrow
    ensures { result ≡ coded_arrow (handed chart.now number) }
{
    call_reader::hand_out(chart, number).into()
}

// What an outcome says in words; of success only that no paper was wrong.
#[unsafe(no_mangle)]
pub extern "C" fn doilystrand_words_of(outcome: Outcome) -> Words
    ensures { result ≡ words_of outcome.number outcome.entry }
{
    refusal_words::words_of(outcome.number, outcome.entry)
}
