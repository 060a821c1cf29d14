//! What C is told of a call.
ghost use Rattle.std.specs.Prelude.{◌≡◌};
ghost use Rattle.mte_c.specs.Heap.Outcomes.{code_of_cause, code_of_error, code_of_table, fault_outcome, freed_outcome};
ghost use Rattle.mte_c.specs.Heap.Outcomes.{plain, pointer_outcome, refusal, resized_outcome};

use class_table::TableError;
use handed_text::{DONE, NO, REFUSED};
use heap_theory::{FreeError, NullCause, ReallocError};
use machine_theory::Fault;
use tagged_heap::Heap;

/// How a call ended, and its answer. What a call has not is 0.
#[repr(C)]
#[derive(Clone, Copy)]
pub struct Outcome {
    /// How it ended.
    pub end: u32,
    /// The code of the refusal or of the fault.
    pub code: u32,
    /// The address.
    pub value: u64,
    /// The lowest granule with another tag, counted from the region's start.
    pub granule: u32,
    /// The tag of that granule, 0 to 15.
    pub memory_tag: u8,
    /// The tag of the address, 0 to 15.
    pub pointer_tag: u8,
    /// What that granule is to the heap: 0 slack, 1 header, 2 tail, 3 a freed chunk, 4 a live chunk.
    pub granule_kind: u8,
}

impl Outcome {
    /// This end, and no answer.
    pub(crate) fn plain(end: u32) -> Outcome
        ensures { result ≡ plain end }
    {
        Outcome {
            end,
            code: 0,
            value: 0,
            granule: 0,
            memory_tag: 0,
            pointer_tag: 0,
            granule_kind: 0,
        }
    }

    /// Done, with this address.
    pub(crate) fn with_value(value: u64) -> Outcome
        ensures { result ≡ record (plain DONE) { value = value } }
    {
        Outcome {
            value,
            ..Outcome::plain(DONE)
        }
    }

    /// The heap's no, with this code.
    pub(crate) fn refusal(code: u32) -> Outcome
        ensures { result ≡ refusal code }
    {
        Outcome {
            code,
            ..Outcome::plain(NO)
        }
    }

    /// The classes of a new heap are refused.
    pub(crate) fn of_table(fault: TableError) -> Outcome
        ensures { result ≡ record (plain REFUSED) { code = code_of_table fault } }
    {
        Outcome {
            code: code_of_table(fault),
            ..Outcome::plain(REFUSED)
        }
    }

    /// The outcome of a request.
    pub(crate) fn of_pointer(given: Result<u64, NullCause>) -> Outcome
        ensures { result ≡ pointer_outcome given }
    {
        match given {
            Ok(address) => Outcome::with_value(address),
            Err(cause) => Outcome::refusal(code_of_cause(cause)),
        }
    }

    /// The outcome of a change of size.
    pub(crate) fn of_resized(resized: Result<u64, ReallocError>) -> Outcome
        ensures { result ≡ resized_outcome resized }
    {
        match resized {
            Ok(address) => Outcome::with_value(address),
            Err(ReallocError::Null(cause)) => Outcome::refusal(code_of_cause(cause)),
            Err(ReallocError::Refused(error)) => Outcome::refusal(code_of_error(error)),
        }
    }

    /// The outcome of a free.
    pub(crate) fn of_freed(freed: Result<(), FreeError>) -> Outcome
        ensures { result ≡ freed_outcome freed }
    {
        match freed {
            Ok(()) => Outcome::plain(DONE),
            Err(error) => Outcome::refusal(code_of_error(error)),
        }
    }

    /// The outcome of a fault.
    pub(crate) fn of_fault(heap: &Heap, fault: Fault) -> Outcome
        ensures { result ≡ fault_outcome heap.now.state fault }
    {
        match fault {
            Fault::Unmapped => Outcome::refusal(50),
            Fault::Alignment => Outcome::refusal(51),
            Fault::TagCheck {
                granule,
                memory_tag,
                pointer_tag,
            } => Outcome {
                granule,
                memory_tag,
                pointer_tag,
                granule_kind: heap.place_kind(granule).number(),
                ..Outcome::refusal(52)
            },
        }
    }
}

fn code_of_table(fault: TableError) -> u32
    ensures { result ≡ code_of_table fault }
{
    match fault {
        TableError::TooMany => 20,
        TableError::OutOfRange => 21,
        TableError::NotAscending => 22,
        TableError::BadLine => 23,
    }
}

fn code_of_cause(cause: NullCause) -> u32
    ensures { result ≡ code_of_cause cause }
{
    match cause {
        NullCause::Large => 60,
        NullCause::NoClass => 61,
        NullCause::Exhausted => 62,
    }
}

fn code_of_error(error: FreeError) -> u32
    ensures { result ≡ code_of_error error }
{
    match error {
        FreeError::Misplaced => 63,
        FreeError::NotLive => 64,
        FreeError::WrongTag => 65,
    }
}
