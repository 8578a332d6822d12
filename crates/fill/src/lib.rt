// Rows of marks, filled state by state: from the rows of two operands, from labels, or from numbers.
#![tactic(auto)]

ghost use Rattle.std.specs.Prelude.{◌≡◌, true, ℕ, ◌+◌, ◌*◌, ◌≤◌, ◌<◌, ◌/◌, ◌%◌, ◌^◌, length, get_or, eqb};
ghost use Rattle.model.specs.Engine.{num};
ghost use Rattle.model.specs.Marks.{mark};
ghost use Rattle.chart.specs.Bytes.{label_word};
ghost use Rattle.hints.specs.Values.{value_of};
ghost use Rattle.fill.specs.Fill.{combine, passes_limit};
ghost use Rattle.fill.specs.Written.{RowWritten, WrittenBy};

// A mark from the marks p and q of two operands.
#[derive(Clone, Copy)]
pub enum Connective {
    Yes,
    No,
    Not,
    And,
    Or,
}

// The mark from the marks p and q.
fn combined(connective: Connective, p: bool, q: bool) -> bool
    ensures { result ≡ combine connective p q }
{
    match connective {
        Connective::Yes => true,
        Connective::No => false,
        Connective::Not => !p,
        Connective::And => p & q,
        Connective::Or => p | q,
    }
}

// Whether v is above the limit, or up to it.
fn passes_limit(above: bool, limit: u32, v: u32) -> bool
    ensures { result ≡ passes_limit above limit v }
{
    if above {
        return limit < v;
    }
    v <= limit
}

// Row t from the rows of a and b, which may be row t itself. So it is no `write_row`: it reads the marks that it writes.
pub fn fill(connective: Connective, n: usize, t: usize, a: usize, b: usize, marks: &mut [u8])
    requires { (t * n + n ≤ length marks.old) × (a ≤ t) × (b ≤ t) }
    ensures { RowWritten n t (λ s. combine connective (mark n marks.old a s) (mark n marks.old b s))
        marks.old marks.new }
{
    let at = t * n;
    let left = a * n;
    let right = b * n;
    for s in 0..n {
        let p = marks[left + s] == 1;
        let q = marks[right + s] == 1;
        marks[at + s] = combined(connective, p, q) as u8;
    }
}

// Every mark of a row is v.
pub fn all_are(v: u8, row: &[u8]) -> bool
    ensures { result ≡ true → (s : ℕ) → s < length row.now → get_or row.now s 0 ≡ v }
{
    row.iter().all(|&x| x == v)
}

// Row t, as f says of each state.
fn write_row<F: Fn(usize) -> bool>(n: usize, t: usize, f: F, marks: &mut [u8])
    requires room { t * n + n ≤ length marks.old }
    requires asked { (s : ℕ) → s < n → F.pre f s }
    ensures { WrittenBy (t * n) n (F.post f) marks.old marks.new }
{
    let at = t * n;
    for s in 0..n {
        marks[at + s] = f(s) as u8;
    }
}

// Row t from label i.
pub fn fill_label(chart: &[u8], n: usize, i: usize, t: usize, marks: &mut [u8])
    requires { (9 + 2 * n ≤ length chart.now) × (i < 16) × (t * n + n ≤ length marks.old) }
    ensures { RowWritten n t (λ s. eqb (label_word chart.now s / 2 ^ i % 2) 1)
        marks.old marks.new }
{
    write_row(n, t, |s| (chart::label_word(chart, s) >> i) % 2 == 1, marks);
}

// Row t from the values of numbers: those above a limit, or those up to it.
pub fn fill_limit(above: bool, limit: u32, n: usize, t: usize, numbers: &[u32], marks: &mut [u8])
    requires { (length numbers.now ≡ n) × (t * n + n ≤ length marks.old) }
    ensures { RowWritten n t (λ s. passes_limit above limit (value_of (num numbers.now s)))
        marks.old marks.new }
{
    write_row(
        n,
        t,
        |s| passes_limit(above, limit, hints::value(numbers[s])),
        marks,
    );
}
