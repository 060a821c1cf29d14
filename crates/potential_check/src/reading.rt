//! How a text spells a certificate, and a text that begins with one.
ghost use Rattle.std.specs.Prelude.{◌≡◌, IfOk};
ghost use Rattle.line_text.specs.Lines.{lines};
ghost use Rattle.potential_check.specs.Leading.{GivesLeadingBy};
ghost use Rattle.potential_check.specs.Certificates.SheetView.{sheet_of};
ghost use Rattle.potential_check.specs.SheetText.{GivesBy, IsWithinLimits, nothing_read, read_in};

use crate::certificates::Certificate;
use crate::cost::{Cost, CostKind};
use crate::draft::Draft;
use crate::fault::SheetError;
use crate::leading_sheet::LeadingSheet;
use crate::part::Part;
use line_text::{LineReader, Lines, Stop, lines_in, read_lines};
use std::alloc::Global;

/// The certificate that a text spells: a class line, `limit K` (1 to 32), perhaps `step S` (2, 4 or 8; else the step is 1), perhaps
/// `forced 1024`, `waste W` or `footprint F` by its cost, and at most 32 lines `row ..` of at most 1,023 numbers; each number is below 2^64. The last line may lack its
/// newline. Errors: the number of the first line that is faulty or missing, or `OutOfMemory`.
pub fn read_sheet<C: CostKind>(alloc: Global, text: &[u8]) -> Result<Certificate<C>, SheetError>
    ensures exact { GivesBy C.kind sheet_of result (read_in C.kind text.now) }
    ensures within { IfOk result (λ sheet. IsWithinLimits (sheet_of sheet)) }
{
    let leading = read_leading_sheet(alloc, text)?;
    match lines_in(leading.rest).next() {
        None => Ok(leading.sheet),
        Some(_line) => Err(SheetError::at_line(C::kind(), leading.lines + 1)),
    }
}

/// The certificate at the start of a text, and the text after it. Its lines are the first three, one more for each of `step` and `forced`
/// that the third begins with, or `forced` the one after `step`, and all lines directly after them whose first word is `row`. Errors are those
/// of `read_sheet` over these lines.
pub fn read_leading_sheet<C: CostKind>(
    alloc: Global,
    text: &[u8],
) -> Result<LeadingSheet<'_, C>, SheetError>
    ensures { GivesLeadingBy C.kind (lines text.now) result }
{
    match read_lines(SheetReading::new(C::kind(), alloc), 1, lines_in(text)) {
        Ok((sheet, rest)) => Ok(LeadingSheet {
            lines: sheet.lines(),
            rest: rest.rest(),
            sheet: sheet.certificate(),
        }),
        Err((Stop::OutOfMemory, _number)) => Err(SheetError::OutOfMemory),
        Err((Stop::Fault(()), number)) => Err(SheetError::at_line(C::kind(), u64::from(number))),
    }
}

// what was read of a certificate by a cost, and the part that comes next
#[derive(Drop)]
struct SheetReading {
    cost: Cost,
    next: Part,
    sheet: Draft,
}

impl SheetReading {
    // before the first line
    fn new(cost: Cost, alloc: Global) -> SheetReading
        ensures { result ≡ nothing_read cost }
    {
        SheetReading {
            cost,
            next: Part::Table,
            sheet: Draft::new(alloc),
        }
    }
}

impl LineReader for SheetReading {
    ghost use Rattle.potential_check.specs.Leading.{lines_from};
    ghost use Rattle.potential_check.specs.SheetText.{may_come, sheet_steps};

    type Value = Draft;

    type Fault = ();

    ghost steps = { sheet_steps };

    ghost own = { λ r ls. lines_from r.next ls };

    ghost may_come = { may_come };

    fn take(&mut self, lines: &mut Lines<'_>) -> Option<Result<(), Stop<()>>> {
        let mut ahead = lines_in(lines.rest());
        let line = ahead.next()?;
        if self.next.leaves(line) {
            return None;
        }
        *lines = ahead;
        let part = self.next.of_line(line);
        self.next = part.after();
        Some(self.sheet.take(self.cost, part, line))
    }

    fn finish(self) -> Result<Draft, ()> {
        match self.next {
            Part::Row => Ok(self.sheet),
            _ => Err(()),
        }
    }
}
