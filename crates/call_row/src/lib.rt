// The call row: the part of the overview's or the detail's marks table that holds a row, itself and not a copy.
#![tactic(auto)]

ghost use Rattle.std.specs.Prelude.{◌≡◌, length};
ghost use Rattle.call_row.specs.Row.{chosen, Part, place_of};

// Which of the two tables.
#[derive(Clone, Copy)]
pub enum Choice {
    Overview,
    Detail,
}

// Where a part of a table begins, and how many bytes it has. Laid out as in C, for the call that is exported.
#[repr(C)]
#[derive(Clone, Copy)]
pub struct Place {
    pub start: usize,
    pub size: usize,
}

// The place of row t in a table of so many bytes with n marks a row.
pub fn row_place(bytes: usize, n: usize, t: usize) -> Place
    ensures { result ≡ place_of bytes n t }
{
    if n == 0 {
        return Place { start: 0, size: 0 };
    }
    if bytes / n <= t {
        return Place { start: 0, size: 0 };
    }
    Place {
        start: t * n,
        size: n,
    }
}

// Row t of one table with n marks a row.
fn part(table: &[u8], n: usize, t: usize) -> &[u8]
    ensures { Part table.entry result (place_of (length table.now) n t) }
{
    let at = row_place(table.len(), n, t);
    let start = at.start;
    let end = start + at.size;
    &table[start..end]
}

pub fn row<'a>(overview: &'a [u8], detail: &'a [u8], choice: Choice, n: usize, t: usize) -> &'a [u8]
    ensures { Part (chosen choice overview.entry detail.entry) result
        (place_of (length (chosen choice overview.entry detail.entry).now) n t) }
{
    match choice {
        Choice::Overview => part(overview, n, t),
        Choice::Detail => part(detail, n, t),
    }
}
