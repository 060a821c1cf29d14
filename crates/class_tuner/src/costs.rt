ghost use Rattle.std.specs.Prelude.{◌≡◌, ℕ, ◌^◌, ◌<◌, ◌≤◌, IfOk, refl};
ghost use Rattle.potential_check.specs.Certificates.Spanned.{IsSpanned};
ghost use Rattle.tuner_theory.specs.Spans.{IsCrossing, places, span_waste};
ghost use Rattle.class_table.specs.Steps.{IsStep};

use crate::cost_source::CostSource;
use class_table::MOST_NEEDS;
use potential_check::Spans;
use profile_count::Profile;
use std::alloc::{AllocError, Global};

/// The span wastes of a profile as a source of costs: what the requests of a span lose in the class of its last need, in bytes.
#[derive(Debug, Drop)]
pub struct Costs<'a> {
    lawful: LawfulSpans<'a>,
    calls: u64,
}

// spans, with the laws of a source of costs
#[derive(Debug, Drop)]
struct LawfulSpans<'a> {
    spans: Spans<'a>,
    ghost small: { (i j : ℕ) → i < j → j ≤ places spans.counts spans.step
        → span_waste spans.counts spans.step i j ≤ 2 ^ 60 },
    ghost crossing: { IsCrossing (span_waste spans.counts spans.step) (places spans.counts spans.step) },
}

impl<'a> Costs<'a> {
    /// The costs of a profile for blocks in multiples of a step (1, 2, 4 or 8 granules), with no call counted: a source for `fill_rows`.
    /// The only error is that the allocator refuses memory.
    pub fn new(alloc: Global, profile: &'a Profile, step: u8) -> Result<Costs<'a>, AllocError>
        requires { IsStep step }
        ensures cost { IfOk result
            (λ costs. ⟦<Costs<'a> as CostSource>⟧.cost costs ≡ span_waste profile.now.counts step) }
        ensures places { IfOk result
            (λ costs. ⟦<Costs<'a> as CostSource>⟧.place_count costs ≡ places profile.now.counts step) }
        ensures calls { IfOk result (λ costs. ⟦<Costs<'a> as CostSource>⟧.call_count costs ≡ 0) }
        ensures few { IfOk result (λ costs. ⟦<Costs<'a> as CostSource>⟧.place_count costs ≤ MOST_NEEDS) }
    {
        let spans = Spans::new(alloc, profile, step)?;
        Ok(Costs::over(spans))
    }

    /// The costs of these spans.
    #[tactic(auto, using(tuner_theory::proofs::LawLemmas::few_places))]
    pub(crate) fn over(spans: Spans<'a>) -> Costs<'a>
        requires { IsSpanned spans }
        ensures spans { result.lawful.spans ≡ spans.entry }
        ensures calls { result.calls ≡ 0 }
        ensures few { places spans.entry.counts spans.entry.step ≤ MOST_NEEDS }
    {
        let lawful = LawfulSpans { spans };
        Costs { lawful, calls: 0 }
    }

    /// The spans.
    pub(crate) fn spans(&self) -> &Spans<'a>
        ensures { result.now ≡ self.now.lawful.spans }
    {
        &self.lawful.spans
    }
}

impl<'a> CostSource for Costs<'a> {
    ghost cost = { λ s. span_waste s.lawful.spans.counts s.lawful.spans.step };

    ghost place_count = { λ s. places s.lawful.spans.counts s.lawful.spans.step };

    ghost call_count = { λ s. s.calls };

    ghost with_calls = { λ s n. record s { calls = n } };

    fn places(&self) -> usize {
        self.lawful.spans.places()
    }

    fn calls(&self) -> u64 {
        self.calls
    }

    fn at(&mut self, i: usize, j: usize) -> u64 {
        self.calls += 1;
        self.lawful.spans.waste(i, j)
    }

    ghost is_small = { λ s. s.lawful.small };

    ghost is_crossing = { λ s. s.lawful.crossing };

    ghost sets_calls = { λ s n. refl };

    ghost keeps_cost = { λ s n. refl };

    ghost keeps_places = { λ s n. refl };

    ghost keeps_last = { λ s m n. refl };

    ghost keeps_all = { λ s. refl };
}
