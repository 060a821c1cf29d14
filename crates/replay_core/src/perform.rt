//! What an event does to the heap and to the variables.
ghost use Rattle.class_table.specs.Tables.{loss_of_size};
ghost use Rattle.heap_theory.specs.Calls.{calloc_step, free_step, realloc_step};
ghost use Rattle.trace_event.specs.Ranges.{IsInRange};
ghost use Rattle.replay_theory.specs.Replay.{answer_of, free_answer, malloc_answer, realloc_answer, replay_after};
ghost use Rattle.heap_theory.specs.Sound.{IsSoundHeap};
ghost use Rattle.replay_core.specs.TheoryValues.{AreVariables, FitsBuffer, TellsRequest, over, pointer_in, shown};
ghost use Rattle.replay_theory.specs.Totals.{request_size};
ghost use Rattle.std.specs.Prelude.{◌≡◌, ◌+◌, ◌^◌, ◌<◌, ◌≤◌, IfOk, List, None, Some, length, slice_index, slice_set, ℕ};
ghost use Rattle.std.specs.Result.{result_unwrap_or};

use crate::access::{LONGEST_ACCESS, load, move_address, store};
use crate::answer::Answer;
use heap_theory::{NullCause, ReallocError};
use tagged_heap::Heap;
use trace_event::Event;

/// Performs the event. A load fills the first bytes of `bytes`.
#[tactic(auto, unfolding(replay_theory::specs::Replay::replay_after, replay_theory::specs::Replay::heap_after, replay_theory::specs::Replay::variables_after, replay_theory::specs::Replay::answer_of))]
pub(crate) fn perform(
    heap: &mut Heap,
    variables: &mut [u64],
    event: &Event,
    bytes: &mut [u8; LONGEST_ACCESS],
) -> Answer
    requires in_range { IsInRange event.now }
    requires sound { IsSoundHeap heap.old.state }
    requires variables { AreVariables variables.old }
    requires few { heap.old.frees < 2 ^ 48 }
    ensures after { over heap.new.state variables.new ≡ replay_after (over heap.old.state variables.old) event.now }
    ensures answer { shown bytes.new result ≡ answer_of (over heap.old.state variables.old) event.now }
    ensures filled { FitsBuffer result }
    ensures frees { heap.new.frees ≤ heap.old.frees + 1 }
    ensures tells { TellsRequest heap.old.state.layout.classes (request_size event.now) result }
{
    match *event {
        Event::Malloc { v, n } => give(variables, v, heap.malloc_with_loss(n)),
        Event::Calloc { v, n } => give(variables, v, heap.calloc_with_loss(n)),
        Event::Realloc { v, n } => reallocate(heap, variables, v, n),
        Event::Free { v } => free(heap, variables[usize::from(v)]),
        Event::Load { v, off, len } => {
            load(
                heap,
                move_address(variables[usize::from(v)], off),
                len,
                bytes,
            )
        }
        Event::Store { v, off, len, byte } => {
            store(
                heap,
                move_address(variables[usize::from(v)], off),
                len,
                byte,
            )
        }
        // one arm, so that the compiler takes these fields apart here alone, and not for each event
        Event::Addg { v, w, u6, u4 } | Event::Subg { v, w, u6, u4 } => {
            let address = variables[usize::from(w)];
            variables[usize::from(v)] = match event {
                Event::Addg { .. } => heap.addg(address, u6, u4),
                _ => heap.subg(address, u6, u4),
            };
            Answer::Silent
        }
    }
}

// Sets a variable to the pointer that the request got, or to null. The pointer comes with the bytes that are lost on the request.
fn give(variables: &mut [u64], v: u16, given: Result<(u64, u32), NullCause>) -> Answer
    requires { v < length variables.old }
    ensures variables { variables.new ≡ slice_set variables.old v (result_unwrap_or (pointer_in given) 0) }
    ensures answer { (bytes : List ℕ) → shown bytes result ≡ malloc_answer (pointer_in given) }
    ensures filled { FitsBuffer result }
    ensures tells { (classes : List ℕ) (n : ℕ) → IfOk given (λ given. given.1 ≡ loss_of_size classes n) →
        TellsRequest classes (Some n) result }
{
    match given {
        Ok((p, loss)) => {
            variables[usize::from(v)] = p;
            Answer::Served { loss }
        }
        Err(cause) => {
            variables[usize::from(v)] = 0;
            Answer::NoPointer(cause)
        }
    }
}

// Resizes the chunk at a variable, and sets the variable to its new address. If the heap refuses, the variable keeps its value.
fn reallocate(heap: &mut Heap, variables: &mut [u64], v: u16, n: u32) -> Answer
    requires variable { v < length variables.old }
    requires few { heap.old.frees < 2 ^ 48 }
    ensures state { heap.new.state ≡ (realloc_step heap.old.state (slice_index variables.old v) n).heap }
    ensures variables { variables.new ≡ slice_set variables.old v
        (result_unwrap_or (realloc_step heap.old.state (slice_index variables.old v) n).answer
        (slice_index variables.old v)) }
    ensures answer { (bytes : List ℕ)
        → shown bytes result ≡ realloc_answer (realloc_step heap.old.state (slice_index variables.old v) n).answer }
    ensures filled { FitsBuffer result }
    ensures frees { heap.new.frees ≤ heap.old.frees + 1 }
    ensures tells { TellsRequest heap.old.state.layout.classes (Some n) result }
{
    match heap.realloc_with_loss(variables[usize::from(v)], n) {
        Ok((p, loss)) => {
            variables[usize::from(v)] = p;
            Answer::Served { loss }
        }
        Err(ReallocError::Null(cause)) => Answer::NoPointer(cause),
        Err(ReallocError::Refused(error)) => Answer::NotResized(error),
    }
}

// Frees the chunk at a pointer.
fn free(heap: &mut Heap, p: u64) -> Answer
    requires { heap.old.frees < 2 ^ 48 }
    ensures state { heap.new.state ≡ (free_step heap.old.state p).heap }
    ensures answer { (bytes : List ℕ) → shown bytes result ≡ free_answer (free_step heap.old.state p).answer }
    ensures filled { FitsBuffer result }
    ensures frees { heap.new.frees ≤ heap.old.frees + 1 }
    ensures tells { (classes : List ℕ) → TellsRequest classes None result }
{
    match heap.free(p) {
        Ok(()) => Answer::Silent,
        Err(error) => Answer::NotFreed(error),
    }
}
