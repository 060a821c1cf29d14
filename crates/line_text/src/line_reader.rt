//! One reader of lines for all formats.
ghost use Rattle.std.specs.Prelude.{◌≡◌, ◌<◌, ◌+◌, ◌^◌, ℕ, [], ◌∷◌, List, drop, length, IfSome, IfNone, IfOk, OnOk};
ghost use Rattle.line_text.specs.LineSteps.{read_lines};
ghost use Rattle.line_text.specs.Stops.{GivesLines};

use crate::lines::Lines;

/// What stops a reader at a line.
#[derive(Debug, Clone, Copy, PartialEq, Eq)]
pub enum Stop<F> {
    /// The allocator refused memory.
    OutOfMemory,
    /// What is wrong with the line.
    Fault(F),
}

/// What was read of a text, line by line.
pub trait LineReader {
    ghost use Rattle.line_text.specs.LineSteps.{LineSteps};
    ghost use Rattle.line_text.specs.Stops.{Takes};

    /// What a text spells.
    type Value;

    /// What may be wrong with a line.
    type Fault;

    ghost steps: { LineSteps Self Self.Value Self.Fault };

    // the lines that are its own: all of these, or the first of them
    ghost own: { Self → List (List ℕ) → List (List ℕ) };

    // so many lines may come at most
    ghost may_come: { Self → ℕ };

    /// Takes the next line. `None` if no line of its own is left.
    fn take(&mut self, lines: &mut Lines<'_>) -> Option<Result<(), Stop<Self::Fault>>>
        ensures line { IfSome result (λ read. (line : List ℕ) × (lines.old ≡ line ∷ lines.new)
            × Takes steps own self.old line self.new lines.new read) }
        ensures fewer { IfSome result (λ read. OnOk read (may_come self.new < may_come self.old)) }
        ensures end { IfNone result ((own self.old lines.old ≡ []) × (lines.new ≡ lines.old) × (self.new ≡ self.old)) };

    /// What was read in the end.
    fn finish(self) -> Result<Self::Value, Self::Fault>
        ensures { result ≡ steps.finish self };
}

/// What the lines that are a reader's own spell, the first of which has this number, and the lines after them. Errors, with the number of
/// the line: the first faulty line's fault, or `OutOfMemory`.
pub fn read_lines<R: LineReader + Drop>(
    reader: R,
    first: u32,
    lines: Lines<'_>,
) -> Result<(R::Value, Lines<'_>), (Stop<R::Fault>, u32)>
    requires { first + R.may_come reader < 2 ^ 32 }
    ensures read { GivesLines result (read_lines R.steps first reader (R.own reader lines.entry)) }
    ensures left { IfOk result (λ read. read.1 ≡ drop (length (R.own reader lines.entry)) lines.entry) }
{
    let mut reader = reader;
    let mut lines = lines;
    let mut number = first;
    while let Some(read) = reader.take(&mut lines) {
        if let Err(stop) = read {
            return Err((stop, number));
        }
        number += 1;
    }
    match reader.finish() {
        Ok(value) => Ok((value, lines)),
        Err(fault) => Err((Stop::Fault(fault), number)),
    }
}
