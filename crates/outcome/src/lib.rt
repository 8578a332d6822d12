// The outcome of a call: a refusal's number and place and which paper was wrong, or success.
#![tactic(auto)]

ghost use Rattle.std.specs.Prelude.{◌≡◌, ◌≤◌, ◌<◌};
ghost use Rattle.outcome.specs.Answer.{number_of, told, answer, written};
ghost use Rattle.outcome.specs.Entry.{entry_of, overview};
ghost use Rattle.outcome.specs.Refusal.{success, outcome, refusal};

// The rows of 01's table and of 02's, by their numbers. Of a head, three in a row: too short, another version, a stated length
// that is not the real one.
#[derive(Clone, Copy)]
pub enum Fault {
    ChartShort = 1,
    ChartVersion = 2,
    ChartStated = 3,
    StateCount = 4,
    ArrowCount = 5,
    ChartLength = 6,
    NoSuchState = 7,
    EmptySlot = 8,
    NoArrowOut = 9,
    RuleShort = 10,
    RuleVersion = 11,
    RuleStated = 12,
    NodeCount = 13,
    Malformed = 14,
    NotLower = 15,
    NotUsedOnce = 16,
    MarksTable = 17,
    Scratch = 18,
    NoTimedLoop = 19,
    NoMap = 20,
    NoOverviewState = 21,
    LabelsDiffer = 22,
    NotCovered = 23,
    NotShowable = 60,
    TableScratch = 61,
    NoRunFits = 62,
    LongBound = 63,
    NotAText = 64,
    TooMuch = 65,
    OutputShort = 66,
}

impl Fault {
    pub fn number(self) -> u32
        ensures { result ≡ number_of self }
    {
        self as u32
    }

    // The refusal that the row is, where it is met.
    pub fn at(self, place: usize) -> Refusal
        requires { place < 65536 }
        ensures { told result ≡ refusal (number_of self) place }
    {
        Refusal {
            fault: self,
            place: place as u32,
        }
    }
}

// A refusal: the row that is met, and its place, 0 where none is named.
#[derive(Clone, Copy)]
pub struct Refusal {
    pub fault: Fault,
    pub place: u32,
}

// Laid out as in C, for the calls that are exported.
#[repr(C)]
#[derive(Clone, Copy)]
pub struct Outcome {
    pub number: u32,
    pub place: u32,
    pub entry: u32,
}

// What a call with one output answers: its outcome, and how many bytes it wrote, 0 on a refusal.
#[repr(C)]
#[derive(Clone, Copy)]
pub struct Written {
    pub outcome: Outcome,
    pub written: usize,
}

pub fn accepted() -> Outcome
    ensures { result ≡ success }
{
    Outcome {
        number: 0,
        place: 0,
        entry: NONE_WRONG,
    }
}

// The entry that a number of 02 carries.
fn later_entry(number: u32) -> u32
    requires { 24 ≤ number }
    ensures { result ≡ entry_of number }
{
    if number < 60 {
        return NONE_WRONG;
    }
    if number < 61 {
        return RULE;
    }
    if number < 63 {
        return BUFFER;
    }
    if number < 66 {
        return RULE;
    }
    if number < 67 {
        return BUFFER;
    }
    NONE_WRONG
}

// The entry that a number carries.
fn entry_of(number: u32) -> u32
    ensures { result ≡ entry_of number }
{
    if number < 1 {
        return NONE_WRONG;
    }
    if number < 10 {
        return CHART_OR_DETAIL;
    }
    if number < 17 {
        return RULE;
    }
    if number < 19 {
        return BUFFER;
    }
    if number < 20 {
        return CHART_OR_DETAIL;
    }
    if number < 23 {
        return MAP;
    }
    if number < 24 {
        return CHART_OR_DETAIL;
    }
    later_entry(number)
}

// Of any number, one that no row has too.
pub fn refused(number: u32, place: u32) -> Outcome
    ensures { result ≡ refusal number place }
{
    Outcome {
        number,
        place,
        entry: entry_of(number),
    }
}

impl From<Refusal> for Outcome {
    ghost from_gives = { λ own result. result ≡ told own };

    // Once in the archive, and not in every call.
    #[inline(never)]
    fn from(own: Refusal) -> Outcome {
        refused(own.fault.number(), own.place)
    }
}

// A chart's refusal, of the overview.
pub fn of_overview(own: Outcome) -> Outcome
    ensures { result ≡ outcome own.number own.place overview }
{
    Outcome {
        number: own.number,
        place: own.place,
        entry: OVERVIEW,
    }
}

// What a test answered, as a call answers it.
impl From<Result<(), Refusal>> for Outcome {
    ghost from_gives = { λ tested result. result ≡ answer tested };

    fn from(tested: Result<(), Refusal>) -> Outcome {
        match tested {
            Ok(()) => accepted(),
            Err(own) => Outcome::from(own),
        }
    }
}

// The same of a call with an output, and how many bytes it wrote.
impl From<Result<usize, Refusal>> for Written {
    ghost from_gives = { λ tested result. result ≡ written tested };

    fn from(tested: Result<usize, Refusal>) -> Written {
        match tested {
            Ok(written) => Written {
                outcome: accepted(),
                written,
            },
            Err(own) => Written {
                outcome: Outcome::from(own),
                written: 0,
            },
        }
    }
}

// The entries: which paper was wrong. Numbers, since C reads them.
const NONE_WRONG: u32 = 0;

const CHART_OR_DETAIL: u32 = 1;

const OVERVIEW: u32 = 2;

const RULE: u32 = 3;

const MAP: u32 = 4;

const BUFFER: u32 = 5;
