//! What a verdict `optimal` shows, and the line that says it.
ghost use Rattle.std.specs.Prelude.{◌≡◌, ◌++◌, IfOk, OnOk};
ghost use Rattle.std.specs.Fmt.{decimal};
ghost use Rattle.claim_line.specs.Claims.{forced_class, history_claim, profile_claim, timeline_claim};
ghost use Rattle.claim_line.specs.Lines.{head_of, shown_claim, shown_counted, shown_requests};
ghost use Rattle.potential_check.specs.Certificates.SheetView.{sheet_of};

use crate::requests::{Requests, requests_of};
use class_table::LARGEST_CLASS;
use history_count::{History, Timeline};
use itoa::Buffer;
use potential_check::{Fit, Sheet};
use profile_count::Profile;
use std::alloc::{AllocError, Global};

/// What was counted.
#[derive(Debug, Clone, Copy, PartialEq, Eq)]
pub enum InputCount {
    /// The requests of a profile.
    Requests(Requests),
    /// How many snapshots a history has.
    Snapshots(u64),
    /// How many events a timeline has.
    Events(u64),
}

/// What `optimal` shows of a certificate for what was counted: of the tables of at most `limit` classes, all multiples of `step`, that serve
/// it, and that have the largest class if it is forced, none costs less than `cost`, which the certificate's own table does. The cost is the
/// waste on a profile, and the footprint over a history or a timeline.
#[derive(Debug, Clone, Copy, PartialEq, Eq)]
pub struct Claim {
    /// The cost, in bytes.
    pub cost: u64,
    /// The most classes, 1 to 32.
    pub limit: u8,
    /// The step, in granules: 1, 2, 4 or 8.
    pub step: u8,
    /// The class that is forced, in granules; 0 if none is.
    pub forced: u16,
    /// What was counted.
    pub counted: InputCount,
}

/// What `optimal` shows of a sheet for a profile.
pub fn claim_on_profile(sheet: &Sheet, profile: &Profile) -> Claim
    ensures { result ≡ profile_claim (sheet_of sheet.now) profile.now }
{
    Claim {
        cost: sheet.cost,
        limit: sheet.limit,
        step: sheet.step,
        forced: forced_class(sheet.forced),
        counted: InputCount::Requests(requests_of(profile)),
    }
}

/// What `optimal` shows of a fit for a history.
pub fn claim_over_history(fit: &Fit, history: &History) -> Claim
    ensures { result ≡ history_claim (sheet_of fit.now) history.now }
{
    Claim {
        cost: fit.cost,
        limit: fit.limit,
        step: fit.step,
        forced: forced_class(fit.forced),
        counted: InputCount::Snapshots(history.snapshot_count() as u64),
    }
}

/// What `optimal` shows of a fit for a timeline.
pub fn claim_over_timeline(fit: &Fit, timeline: &Timeline) -> Claim
    ensures { result ≡ timeline_claim (sheet_of fit.now) timeline.now }
{
    Claim {
        cost: fit.cost,
        limit: fit.limit,
        step: fit.step,
        forced: forced_class(fit.forced),
        counted: InputCount::Events(timeline.events().len() as u64),
    }
}

// the class that is forced, or 0
fn forced_class(forced: bool) -> u16
    ensures { result ≡ forced_class forced }
{
    if forced { LARGEST_CLASS } else { 0 }
}

impl InputCount {
    // the first words of a claim, up to its cost
    fn head(&self) -> &'static [u8]
        ensures { result.now ≡ head_of self.now }
    {
        match self {
            InputCount::Requests(_) => b"claim waste ",
            InputCount::Snapshots(_) | InputCount::Events(_) => b"claim footprint ",
        }
    }
}

/// The words of a claim, without a newline. The only error is that the allocator refuses memory.
pub fn text_of_claim(alloc: Global, claim: Claim) -> Result<Vec<u8>, AllocError>
    ensures { IfOk result (λ text. text.items ≡ shown_claim claim) }
{
    let mut text = Vec::new(alloc);
    append_claim(&mut text, claim)?;
    Ok(text)
}

fn append_claim(text: &mut Vec<u8>, claim: Claim) -> Result<(), AllocError>
    ensures { OnOk result (text.new.items ≡ text.old.items ++ shown_claim claim) }
{
    append_number(text, claim.counted.head(), claim.cost)?;
    append_number(text, b" limit ", u64::from(claim.limit))?;
    append_number(text, b" step ", u64::from(claim.step))?;
    append_number(text, b" forced ", u64::from(claim.forced))?;
    append_counted(text, claim.counted)
}

fn append_counted(text: &mut Vec<u8>, counted: InputCount) -> Result<(), AllocError>
    ensures { OnOk result (text.new.items ≡ text.old.items ++ shown_counted counted) }
{
    match counted {
        InputCount::Requests(all) => append_requests(text, all),
        InputCount::Snapshots(count) => append_number(text, b" snapshots ", count),
        InputCount::Events(count) => append_number(text, b" events ", count),
    }
}

fn append_requests(text: &mut Vec<u8>, all: Requests) -> Result<(), AllocError>
    ensures { OnOk result (text.new.items ≡ text.old.items ++ shown_requests all) }
{
    append_number(text, b" sizes ", all.sizes)?;
    append_number(text, b" requests ", all.requests)?;
    append_number(text, b" bytes ", all.bytes)?;
    append_number(text, b" large ", all.large)
}

// appends a name and a number
fn append_number(text: &mut Vec<u8>, name: &[u8], number: u64) -> Result<(), AllocError>
    ensures { OnOk result (text.new.items ≡ text.old.items ++ name.now ++ decimal number) }
{
    let mut buffer = Buffer::new();
    text.extend_from_slice(name)?;
    text.extend_from_slice(buffer.format(number).as_bytes())
}
