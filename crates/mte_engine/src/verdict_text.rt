//! The text of a verdict `optimal`.
ghost use Rattle.std.specs.Prelude.{◌≡◌, IfOk};
ghost use Rattle.byte_streams.specs.TextLeft.{text_left};
ghost use Rattle.mte_engine.specs.Check.{optimal_text};

use byte_streams::Text;
use claim_line::{Claim, text_of_claim};
use std::alloc::{AllocError, Global};

/// `optimal`, and the line of a claim.
pub(crate) fn text_of_optimal(alloc: Global, claim: Option<Claim>) -> Result<Text, AllocError>
    ensures { IfOk result (λ text. text_left text ≡ optimal_text claim) }
{
    match claim {
        None => Ok(Text::new(Vec::from_slice(alloc, b"optimal\n")?)),
        Some(claim) => {
            let mut text = Vec::from_slice(alloc, b"optimal\n")?;
            text.extend_from_slice(&text_of_claim(alloc, claim)?)?;
            text.push(b'\n')?;
            Ok(Text::new(text))
        }
    }
}
