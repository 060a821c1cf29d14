//! The event that a line spells, or its fault, found word by word. `one_pass` reads the lines that spell events, as far as it can: a change of
//! an event's words must be made in both files and in `specs/TraceLine.antt`.
ghost use Rattle.std.specs.Prelude.{◌≡◌, ◌≤◌, ◌∷◌, [], ℕ, IfOk, map};
ghost use Rattle.trace_event.specs.declared.event.Event.{Event as EventView};
ghost use Rattle.trace_event.specs.Ranges.{IsInRange};
ghost use Rattle.line_text.specs.Lines.{words};
ghost use Rattle.trace_reader.specs.TraceLine.{made, event_named, event_of_line, event_of_words, free_of, load_of, move_of, request_of, store_of, variable_of, len_of};
ghost use Rattle.trace_event.specs.declared.event.Event.TheVariants.{Addg, Calloc, Malloc, Realloc, Subg};

use crate::fault::TraceFault;
use crate::words::{are_full_words, byte_in, number_from, offset_in};
use arrayvec::ArrayVec;
use trace_event::Event;

/// The most bytes of a line, without its newline.
pub(crate) const LONGEST_LINE: usize = 80;

/// The most events of a trace, one for each line.
pub(crate) const MOST_EVENTS: u32 = 1_000_000;

// the first words of events
const MALLOC: &[u8] = b"malloc";

const CALLOC: &[u8] = b"calloc";

const REALLOC: &[u8] = b"realloc";

const FREE: &[u8] = b"free";

const LOAD: &[u8] = b"load";

const STORE: &[u8] = b"store";

const ADDG: &[u8] = b"addg";

const SUBG: &[u8] = b"subg";

/// The event that the line of this number spells, counted from 1, or the line's fault.
pub(crate) fn event_in(number: u32, line: &[u8]) -> Result<Event, TraceFault>
    ensures event { result ≡ event_of_line number line.now }
    ensures range { IfOk result (λ event. IsInRange event) }
    ensures few { IfOk result (λ event. number ≤ MOST_EVENTS) }
{
    judged_line(number, line)
}

// The whole of `event_in`, but only with the clause that determines the result. The other two clauses of `event_in` follow from this one,
// whichever return it was. In one function they would have to be proved at each return.
#[tactic(auto, unfolding(crate::specs::TraceLine::event_of_line))]
fn judged_line(number: u32, line: &[u8]) -> Result<Event, TraceFault>
    ensures { result ≡ event_of_line number line.now }
{
    if line.len() > LONGEST_LINE {
        return Err(TraceFault::LineTooLong);
    }
    if number > MOST_EVENTS {
        return Err(TraceFault::TooManyEvents);
    }
    judged_words(line)
}

// the event that a line spells, or its fault, found word by word
#[tactic(auto, unfolding(crate::specs::TraceLine::event_of_words))]
#[inline(never)]
fn judged_words(line: &[u8]) -> Result<Event, TraceFault>
    ensures { result ≡ event_of_words (words line.now) }
{
    let mut words = ArrayVec::new();
    if !are_full_words(line, &mut words) {
        return Err(TraceFault::BadWord);
    }
    let [name, arguments @ ..] = words.as_slice() else {
        return Err(TraceFault::BadWord);
    };
    event_named(name, arguments)
}

// the event of this name whose numbers are these words
fn event_named(name: &[u8], words: &[&[u8]]) -> Result<Event, TraceFault>
    ensures { result ≡ event_named name.now (map (λ w. w.now) words.now) }
{
    if name == MALLOC {
        return malloc_in(words);
    }
    if name == CALLOC {
        return calloc_in(words);
    }
    if name == REALLOC {
        return realloc_in(words);
    }
    if name == FREE {
        return free_in(words);
    }
    if name == LOAD {
        return load_in(words);
    }
    if name == STORE {
        return store_in(words);
    }
    if name == ADDG {
        return addg_in(words);
    }
    if name == SUBG {
        return subg_in(words);
    }
    Err(TraceFault::BadWord)
}

// the number of a variable
fn variable_in(word: &[u8]) -> Result<u16, TraceFault>
    ensures { result ≡ variable_of word.now }
{
    Ok(number_from(0, Event::LAST_VARIABLE, word)? as u16)
}

// the event of a line `free`, from the words after the first; the functions below read these words of their lines too
fn free_in(words: &[&[u8]]) -> Result<Event, TraceFault>
    ensures { result ≡ free_of (map (λ w. w.now) words.now) }
{
    let [v] = words else {
        return Err(TraceFault::BadWord);
    };
    let v = variable_in(v)?;
    Ok(Event::Free { v })
}

fn malloc_in(words: &[&[u8]]) -> Result<Event, TraceFault>
    ensures { result ≡ request_of Malloc (map (λ w. w.now) words.now) }
{
    let (v, n) = request_in(words)?;
    Ok(Event::Malloc { v, n })
}

fn calloc_in(words: &[&[u8]]) -> Result<Event, TraceFault>
    ensures { result ≡ request_of Calloc (map (λ w. w.now) words.now) }
{
    let (v, n) = request_in(words)?;
    Ok(Event::Calloc { v, n })
}

fn realloc_in(words: &[&[u8]]) -> Result<Event, TraceFault>
    ensures { result ≡ request_of Realloc (map (λ w. w.now) words.now) }
{
    let (v, n) = request_in(words)?;
    Ok(Event::Realloc { v, n })
}

fn addg_in(words: &[&[u8]]) -> Result<Event, TraceFault>
    ensures { result ≡ move_of Addg (map (λ w. w.now) words.now) }
{
    let (v, w, u6, u4) = move_in(words)?;
    Ok(Event::Addg { v, w, u6, u4 })
}

fn subg_in(words: &[&[u8]]) -> Result<Event, TraceFault>
    ensures { result ≡ move_of Subg (map (λ w. w.now) words.now) }
{
    let (v, w, u6, u4) = move_in(words)?;
    Ok(Event::Subg { v, w, u6, u4 })
}

fn load_in(words: &[&[u8]]) -> Result<Event, TraceFault>
    ensures { result ≡ load_of (map (λ w. w.now) words.now) }
{
    let [v, off, len] = words else {
        return Err(TraceFault::BadWord);
    };
    load_from(v, off, len)
}

// a load, from its three words
fn load_from(v: &[u8], off: &[u8], len: &[u8]) -> Result<Event, TraceFault>
    ensures { result ≡ load_of (v.now ∷ off.now ∷ len.now ∷ []) }
{
    let v = variable_in(v)?;
    let off = offset_in(off)?;
    let len = len_in(len)?;
    Ok(Event::Load { v, off, len })
}

fn store_in(words: &[&[u8]]) -> Result<Event, TraceFault>
    ensures { result ≡ store_of (map (λ w. w.now) words.now) }
{
    let [v, off, len, byte] = words else {
        return Err(TraceFault::BadWord);
    };
    store_from(v, off, len, byte)
}

// a store, from its four words
fn store_from(v: &[u8], off: &[u8], len: &[u8], byte: &[u8]) -> Result<Event, TraceFault>
    ensures { result ≡ store_of (v.now ∷ off.now ∷ len.now ∷ byte.now ∷ []) }
{
    let v = variable_in(v)?;
    let off = offset_in(off)?;
    let len = len_in(len)?;
    let byte = byte_in(byte)?;
    Ok(Event::Store { v, off, len, byte })
}

// the variable and the size of a request of any event
fn request_in(words: &[&[u8]]) -> Result<(u16, u32), TraceFault>
    ensures { (event : ℕ → ℕ → EventView)
        → made (λ x. event x.0 x.1) result ≡ request_of event (map (λ w. w.now) words.now) }
{
    let [v, n] = words else {
        return Err(TraceFault::BadWord);
    };
    let v = variable_in(v)?;
    let n = number_from(0, Event::LARGEST_REQUEST, n)?;
    Ok((v, n))
}

// the two variables of a move, its granules and its tags
fn move_in(words: &[&[u8]]) -> Result<(u16, u16, u8, u8), TraceFault>
    ensures { (event : ℕ → ℕ → ℕ → ℕ → EventView)
        → made (λ x. event x.0 x.1 x.2 x.3) result ≡ move_of event (map (λ w. w.now) words.now) }
{
    let [v, w, u6, u4] = words else {
        return Err(TraceFault::BadWord);
    };
    move_from(v, w, u6, u4)
}

// the numbers of a move, from its four words
fn move_from(v: &[u8], w: &[u8], u6: &[u8], u4: &[u8]) -> Result<(u16, u16, u8, u8), TraceFault>
    ensures { (event : ℕ → ℕ → ℕ → ℕ → EventView)
        → made (λ x. event x.0 x.1 x.2 x.3) result ≡ move_of event (v.now ∷ w.now ∷ u6.now ∷ u4.now ∷ []) }
{
    let v = variable_in(v)?;
    let w = variable_in(w)?;
    let u6 = number_from(0, Event::FARTHEST_MOVE, u6)? as u8;
    let u4 = number_from(0, Event::LARGEST_TAG_STEP, u4)? as u8;
    Ok((v, w, u6, u4))
}

// the bytes of an access
fn len_in(word: &[u8]) -> Result<u8, TraceFault>
    ensures { result ≡ len_of word.now }
{
    Ok(number_from(1, Event::LONGEST_ACCESS, word)? as u8)
}
