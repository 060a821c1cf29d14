ghost use Rattle.replay_theory.specs.AccessLaws.{AccessesAreAnswered, IsAnswered};
ghost use Rattle.replay_theory.specs.Replay.Answer.{Silent};
ghost use Rattle.replay_theory.specs.Replay.{Replay, answer_of, heap_after, variable};
ghost use Rattle.replay_theory.specs.Run.{AfterEveryRun};
ghost use Rattle.replay_theory.specs.SoundRun.{IsSoundRun};
ghost use Rattle.trace_event.specs.declared.event.Event.TheVariants.{Store};
ghost use Rattle.trace_event.specs.declared.event.Event.{Event};
ghost use Rattle.machine_theory.specs.Access.{stored};
ghost use Rattle.machine_theory.specs.Address.{moved_by};
ghost use Rattle.std.specs.Prelude.{◌≡◌, ◌≢◌, List, replicate, ℕ, ℤ};

/// What holds for every state that a run reaches: its heap is sound, and each variable with a generation is its slot's address under
/// that generation's tag.
pub fn law_states()
    ensures { AfterEveryRun IsSoundRun }
{}

/// The result of an event that accesses one byte or more, a load or a store: unmapped exactly if the access is not mapped; a tag fault exactly
/// if it is mapped and touches a granule whose tag differs from the pointer's, with the lowest such granule, both tags and its kind; otherwise
/// it succeeds: a load gives the bytes that stand there, and a store is silent. No other event has a fault as its result.
#[tactic(auto, using(crate::proofs::AccessAnswers::access_laws))]
pub fn law_accesses()
    ensures event { (replay : Replay) (event : Event) → IsAnswered replay event (answer_of replay event) }

    // a store leaves its bytes where it succeeds, and changes nothing where it does not
    ensures done { (replay : Replay) (v : ℕ) (off : ℤ) (len byte : ℕ) →
        let address = moved_by (variable replay v) off in
        let answer = answer_of replay (Store v off len byte) in
        let after = heap_after replay (Store v off len byte) in
        let written = stored replay.heap.memory address (replicate len byte) in
        (answer ≡ Silent → after ≡ record replay.heap { memory = written }) × (answer ≢ Silent → after ≡ replay.heap) }
    ensures trace { (first : Replay) (events : List Event) → AccessesAreAnswered first events }
{}
