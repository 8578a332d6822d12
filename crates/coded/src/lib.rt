// What has no form in C, as numbers: the kind of a rule, and what the chart reader hands out.
#![tactic(auto)]

ghost use Rattle.std.specs.Prelude.{◌≡◌};
ghost use Rattle.coded.specs.Coded.{coded_answer, coded_arrow};

use call_kind::{Kind, KindAnswer};
use chart::ArrowWords;
use outcome::Outcome;

// What kind of rule answers, with the kind as its code.
#[repr(C)]
#[derive(Clone, Copy)]
pub struct CodedAnswer {
    pub outcome: Outcome,
    pub kind: u32,
}

impl From<KindAnswer> for CodedAnswer {
    ghost from_gives = { λ answer coded. coded ≡ coded_answer answer };

    fn from(answer: KindAnswer) -> CodedAnswer {
        let kind = match answer.kind {
            Kind::Neither => 0,
            Kind::AllRuns => 1,
            Kind::SomeRun => 2,
            Kind::Both => 3,
        };
        CodedAnswer {
            outcome: answer.outcome,
            kind,
        }
    }
}

// What the chart reader hands out: found is 1 with an arrow's words, and 0 with zeros where it is finished.
#[repr(C)]
#[derive(Clone, Copy)]
pub struct CodedArrow {
    pub found: u32,
    pub start: usize,
    pub end: usize,
    pub fewest: u32,
    pub most: u32,
}

impl From<Option<ArrowWords>> for CodedArrow {
    ghost from_gives = { λ handed coded. coded ≡ coded_arrow handed };

    fn from(handed: Option<ArrowWords>) -> CodedArrow {
        match handed {
            Some(a) => CodedArrow {
                found: 1,
                start: a.start,
                end: a.end,
                fewest: a.fewest,
                most: a.most,
            },
            None => CodedArrow {
                found: 0,
                start: 0,
                end: 0,
                fewest: 0,
                most: 0,
            },
        }
    }
}
