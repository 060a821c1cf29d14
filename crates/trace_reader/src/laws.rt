//! What holds for every trace's text, and for every text that comes in pieces. Each law is the contract of a function that does nothing.
ghost use Rattle.trace_event.specs.declared.event.Event.{Event};
ghost use Rattle.std.specs.List.{concat};
ghost use Rattle.std.specs.Prelude.{◌≡◌, ◌++◌, List, None, Some, length, suc, ℕ};
ghost use Rattle.trace_reader.specs.Reading.{Reading, added, fed, fed_all, finished, nothing_read, whole_reading};
ghost use Rattle.trace_reader.specs.TraceText.{SpellsTrace, trace_of};
ghost use Rattle.trace_reader.specs.declared.fault.TraceFault.{TraceFault};

/// However a text is cut into pieces, its events and its fault are those of the whole text. Events that were taken out on the way do not
/// change what comes after them.
pub fn law_pieces()
    ensures joined { (reading : Reading) (a b : List ℕ) → fed (fed reading a) b ≡ fed reading (a ++ b) }
    ensures text { (pieces : List (List ℕ)) →
        finished (fed_all nothing_read pieces) ≡ whole_reading (trace_of (concat pieces)) }
    ensures after { (events : List Event) (reading : Reading) (piece : List ℕ) →
        fed (added events reading) piece ≡ added events (fed reading piece) }
    ensures end_after { (events : List Event) (reading : Reading) →
        finished (added events reading) ≡ added events (finished reading) }
{}

/// A text that is read as a trace without a fault is that trace's spelling, and the spelling is read as the trace. So no text spells two
/// traces. A fault is in the line after those of the events.
pub fn law_trace_text()
    ensures spelled { (text : List ℕ) (events : List Event) → trace_of text ≡ record { events = events; fault = None } →
        SpellsTrace text events }
    ensures read { (text : List ℕ) (events : List Event) → SpellsTrace text events →
        trace_of text ≡ record { events = events; fault = None } }
    ensures one { (text : List ℕ) (a b : List Event) → SpellsTrace text a → SpellsTrace text b → a ≡ b }
    ensures fault { (text : List ℕ) (number : ℕ) (fault : TraceFault) → (trace_of text).fault ≡ Some (number, fault) →
        number ≡ suc (length (trace_of text).events) }
{}
