//! Counting what the events of a trace request.
ghost use Rattle.std.specs.Prelude.{◌≡◌, ◌++◌, ◌+◌, ◌<◌, ◌≤◌, List, ℕ, [], ◌∷◌, length, take, false, IfOk, OnOk};
ghost use Rattle.replay_theory.specs.Losses.{requested_sizes};
ghost use Rattle.profile_count.specs.Requests.{profile_of_sizes};
ghost use Rattle.trace_reader.specs.TraceLine.{most_events};
ghost use Rattle.tuner_theory.specs.Profiles.{greatest_count};
ghost use Rattle.mte_engine.specs.Traces.{CountsFront, KeepsCounts, profile_of_events};
ghost use Rattle.trace_event.specs.declared.event.Event.{Event as EventView};
ghost use Rattle.trace_reader.specs.Reading.{is_finished};

use crate::trace_feeding::feed;
use profile_count::Profile;
use replay_core::{Event, request_size};
use std::alloc::AllocError;
use trace_reader::{NoObserver, Observer, TraceReader};

/// The requests of a trace, counted as its events are read. There must be at most 1,000,000 events in all, so that no count gets full.
#[derive(Drop)]
pub struct Requests {
    /// How often each size was requested so far.
    pub profile: Profile,
}

impl Observer for Requests {
    ghost has_seen = { λ requests events. length events ≤ most_events → requests.profile ≡ profile_of_events events };

    #[inline(always)]
    fn see(&mut self, event: &Event) {
        count(&mut self.profile, event);
    }
}

/// Takes all events out of the reader, and counts what they request.
pub fn count_out(reader: &mut TraceReader, profile: &mut Profile)
    ensures state { reader.new ≡ record { events = []; state = reader.old.state } }
    ensures counted { (sizes : List ℕ) → length sizes + length reader.old.events ≤ most_events
        → profile.old ≡ profile_of_sizes sizes →
        profile.new ≡ profile_of_sizes (sizes ++ requested_sizes reader.old.events) }
{
    while let Some(event) = reader.next_event() {
        count(profile, &event);
    }
}

/// Feeds a piece of a trace, and counts what its events request. The reader keeps a fault of its text.
pub fn feed_counted(
    reader: &mut TraceReader,
    profile: &mut Profile,
    piece: &[u8],
) -> Result<(), AllocError>
    requires { is_finished reader.old ≡ false }
    ensures counted { OnOk result ((bytes : List ℕ) → KeepsCounts reader.old profile.old bytes →
        KeepsCounts reader.new profile.new (bytes ++ piece.now)) }
    ensures unfinished { is_finished reader.new ≡ false }
{
    feed(reader, piece, &mut NoObserver)?;
    count_out(reader, profile);
    Ok(())
}

/// Reads the lines in front of a text that spell events, as far as the reader finds them at once, and counts what they request. Returns the
/// text after them. No event is kept in between.
pub fn count_lines<'a>(reader: &mut TraceReader, profile: &mut Profile, text: &'a [u8]) -> &'a [u8]
    requires { is_finished reader.old ≡ false }
    ensures counted { (bytes : List ℕ) → KeepsCounts reader.old profile.old bytes →
        CountsFront bytes text.now reader.new profile.new result.now }
    ensures shorter { length result.now ≤ length text.now }
    ensures unfinished { is_finished reader.new ≡ false }
{
    let mut rest = text;
    if !reader.is_at_start() {
        return rest;
    }
    while let Some((event, after)) = reader.read_event(rest) {
        count(profile, &event);
        rest = after;
    }
    rest
}

/// As `count_lines`; but a reader that has failed is fed all of the text, at which it does not look.
pub fn count_rest<'a>(
    reader: &mut TraceReader,
    profile: &mut Profile,
    text: &'a [u8],
) -> Result<&'a [u8], AllocError>
    requires { is_finished reader.old ≡ false }
    ensures counted { IfOk result (λ rest. (bytes : List ℕ) → KeepsCounts reader.old profile.old bytes →
        CountsFront bytes text.now reader.new profile.new rest.now) }
    ensures shorter { IfOk result (λ rest. length rest.now ≤ length text.now) }
    ensures unfinished { is_finished reader.new ≡ false }
{
    if reader.is_at_start() {
        return Ok(count_lines(reader, profile, text));
    }
    feed_counted(reader, profile, text)?;
    Ok(&text[text.len()..])
}

// Counts what an event requests.
#[inline(always)]
#[tactic(auto, using(profile_count::proofs::LawLemmas::one_more_is_counted, profile_count::proofs::LawLemmas::counts_are_few))]
fn count(profile: &mut Profile, event: &Event)
    ensures { (sizes : List ℕ) → length sizes < greatest_count → profile.old ≡ profile_of_sizes sizes →
        profile.new ≡ profile_of_sizes (sizes ++ requested_sizes (event.now ∷ [])) }
{
    if let Some(n) = request_size(event) {
        // A trace has too few events to fill a count.
        let _ = profile.add(n);
    }
}
