//! What C is told of a call's answer.
ghost use Rattle.std.specs.Prelude.{◌≡◌};
ghost use Rattle.mte_c.specs.Arrays.Shown.{ShowsError, ShowsScore, ShowsTuned, ShowsVerdict, plain};

use crate::arrays::codes::code_of_refusal;
use crate::arrays::fault::ArrayError;
use crate::arrays::tuning::TunedNumbers;
use handed_text::{BAD_OPTION, DONE, MISUSE, NO, OUT_OF_MEMORY, REFUSED};
use mte_engine::TableScore;
use potential_check::Verdict;

/// The answer of a call as numbers. What a call has not is 0.
#[repr(C)]
#[derive(Clone, Copy)]
pub struct Numbers {
    /// How it ended.
    pub end: u32,
    /// The code of the fault or of the refusal.
    pub fault: u32,
    /// The index of the faulty entry, counted from 0; or the size that has no class, in bytes.
    pub at: u64,
    /// The waste, in bytes.
    pub waste: u64,
    /// How many classes the table has.
    pub classes: u32,
    /// How many numbers each row of its certificate has.
    pub places: u32,
}

impl Numbers {
    /// What C is told of a score.
    pub fn of_score(scored: Result<TableScore, ArrayError>) -> Numbers
        ensures { ShowsScore scored result }
    {
        match scored {
            Ok(TableScore::Waste(waste)) => Numbers {
                waste,
                ..Numbers::plain(DONE)
            },
            Ok(TableScore::NotServing(size)) => Numbers {
                at: u64::from(size),
                ..Numbers::plain(NO)
            },
            Err(error) => Numbers::of_error(error),
        }
    }

    /// What C is told of a tuned table.
    pub fn of_tuned(tuned: Result<TunedNumbers, ArrayError>) -> Numbers
        ensures { ShowsTuned tuned result }
    {
        match tuned {
            Ok(tuned) => Numbers {
                waste: tuned.waste,
                classes: tuned.classes,
                places: tuned.places,
                ..Numbers::plain(DONE)
            },
            Err(error) => Numbers::of_error(error),
        }
    }

    /// What C is told of a verdict.
    pub fn of_verdict(verdict: Result<Verdict, ArrayError>) -> Numbers
        ensures { ShowsVerdict verdict result }
    {
        match verdict {
            Ok(Verdict::Optimal) => Numbers::plain(DONE),
            Ok(Verdict::Refused(refusal)) => Numbers {
                fault: code_of_refusal(refusal),
                ..Numbers::plain(NO)
            },
            Err(error) => Numbers::of_error(error),
        }
    }

    fn of_error(error: ArrayError) -> Numbers
        ensures { ShowsError error result }
    {
        match error {
            ArrayError::OutOfMemory => Numbers::plain(OUT_OF_MEMORY),
            ArrayError::BadOption => Numbers::plain(BAD_OPTION),
            ArrayError::Misuse => Numbers::plain(MISUSE),
            ArrayError::Table(fault) => Numbers {
                fault: fault.code(),
                ..Numbers::plain(REFUSED)
            },
            ArrayError::Entry(index, fault) => Numbers {
                fault: fault.code(),
                at: index,
                ..Numbers::plain(REFUSED)
            },
        }
    }

    fn plain(end: u32) -> Numbers
        ensures { result ≡ plain end }
    {
        Numbers {
            end,
            fault: 0,
            at: 0,
            waste: 0,
            classes: 0,
            places: 0,
        }
    }
}
