//! A caller of an engine, from a slice to a vector.
ghost use Rattle.std.specs.Prelude.{◌≡◌, IfOk, Ok};
ghost use Rattle.mte_engine.specs.Outcome.{Answer, AnswersInput};
ghost use Rattle.mte_engine.specs.Tune.{tune_answers};
ghost use Rattle.tool_call.specs.Options.{AreValid};
ghost use Rattle.tool_call.specs.declared.call.CommandName.TheVariants.{Tune};
ghost use Rattle.mte_engine.specs.declared.engine.Status.{Status};

use mte_engine::{History, MemorySink, MemorySource, Options, ToolFault, tune};
use std::alloc::Global;

/// The sheet that `tune` writes for a profile, both as texts. The options are `tune`'s. The errors are those of the engine: `Input` with the
/// first fault of the profile, or `OutOfMemory`; as the sink is memory, `WriteFault` means that memory ran out too.
pub fn tuned_sheet(alloc: Global, options: Options, profile: &[u8]) -> Result<Vec<u8>, ToolFault>
    requires { AreValid Tune options }
    ensures { IfOk result (λ text. (answer : Answer)
        × AnswersInput (tune_answers options) profile.now (Ok answer) × (answer.text ≡ text.items)) }
{
    let mut source = MemorySource {
        rest: profile,
        reads: History::new(),
        most: usize::MAX,
        until_failure: None,
    };
    let mut sink = MemorySink {
        text: Vec::new(alloc),
        writes: History::new(),
        most: usize::MAX,
        until_failure: None,
    };
    tune(alloc, options, &mut source, &mut sink)?;
    Ok(sink.text)
}
