ghost use Rattle.std.specs.Prelude.{◌≡◌, ◌↔◌, ◌<◌, ◌≤◌, ◌-◌, ◌^◌, ℕ, IfOk, IsTrue, length, slice_index};
ghost use Rattle.potential_check.specs.Certificates.Spanned.{IsSpanned, last_need};
ghost use Rattle.tuner_theory.specs.Spans.{bytes_up_to, counted_up_to, need_at, places, rounded_need, span_waste};
ghost use Rattle.class_table.specs.Sizes.{IsBlockSize};
ghost use Rattle.class_table.specs.Steps.{IsStep};

use class_table::{GRANULE_BYTES, LARGEST_COUNTED, MOST_NEEDS, need, round_up};
use profile_count::Profile;
use std::alloc::{AllocError, Global};
use std::marker::Model;

/// The spans of a profile: its places, one for each distinct rounded need, and the waste of serving the needs from one place to another by
/// the greatest of them. Each waste follows from two sums for each place, of requests and of bytes.
#[derive(Debug, Drop)]
pub struct Spans<'a> {
    profile: &'a Profile,
    step: u8,
    needs: Vec<u16>,
    // at each place from 0 on: how many requests need at most the need there, and how many bytes they asked for
    counted: Vec<u64>,
    bytes: Vec<u64>,
}

impl<'a> Model for Spans<'a> {
    ghost use Rattle.potential_check.specs.Certificates.Spanned.{HoldsSums, Spanned};

    ghost Value = { Spanned };

    ghost view = { λ s. record { counts = s.profile.now.counts; step = s.step } };

    ghost invariant = { λ s. HoldsSums s.profile.now.counts s.step s.needs.items s.counted.items s.bytes.items };
}

impl<'a> Spans<'a> {
    /// The spans of a profile, for blocks in multiples of a step (1, 2, 4 or 8 granules). The only error is that the allocator refuses
    /// memory.
    pub fn new(alloc: Global, profile: &'a Profile, step: u8) -> Result<Spans<'a>, AllocError>
        requires { IsStep step }
        ensures spans { IfOk result (λ spans. spans ≡ record { counts = profile.now.counts; step = step }) }
        ensures valid { IfOk result IsSpanned }
    {
        let mut needs = Vec::with_capacity(alloc, MOST_NEEDS)?;
        let mut counted = Vec::with_capacity(alloc, MOST_NEEDS + 1)?;
        let mut bytes = Vec::with_capacity(alloc, MOST_NEEDS + 1)?;
        let mut total = 0;
        let mut total_bytes = 0;
        let mut n = profile.next_counted(0);
        while n <= LARGEST_COUNTED {
            let count = u64::from(profile.count(n));
            let need = rounded_need(n, step);
            // a new need: the sums up to the place before it are complete
            if !is_last(&needs, need) {
                needs.push(need)?;
                counted.push(total)?;
                bytes.push(total_bytes)?;
            }
            total += count;
            total_bytes += count * u64::from(n);
            n = profile.next_counted(n + 1);
        }
        counted.push(total)?;
        bytes.push(total_bytes)?;
        Ok(Spans {
            profile,
            step,
            needs,
            counted,
            bytes,
        })
    }

    /// The step, in granules: 1, 2, 4 or 8.
    pub fn step(&self) -> u8
        ensures { result ≡ self.now.step }
    {
        self.step
    }

    /// How many places there are: one for each distinct need, 0 to 1,023. They are counted from 1; place 0 is below all needs.
    #[tactic(auto, using(tuner_theory::proofs::LawLemmas::few_places))]
    pub fn places(&self) -> usize
        ensures places { result ≡ places self.now.counts self.now.step }
        ensures few { result ≤ MOST_NEEDS }
        ensures valid { IsSpanned self.now }
    {
        self.needs.len()
    }

    /// The rounded need at a place from 1 on, in granules.
    pub fn need(&self, place: usize) -> u16
        requires some { 0 < place }
        requires within { place ≤ places self.now.counts self.now.step }
        ensures need { result ≡ need_at self.now.counts self.now.step place }
        ensures in_range { IsBlockSize result }
    {
        self.needs[place - 1]
    }

    /// The rounded needs at the places from 1 on, in granules.
    pub(crate) fn needs(&self) -> &[u16]
        ensures size { length result.now ≡ places self.now.counts self.now.step }
        ensures needs { (place : ℕ) → 0 < place → place ≤ places self.now.counts self.now.step
            → slice_index result.now (place - 1) ≡ need_at self.now.counts self.now.step place }
    {
        &self.needs
    }

    /// The bytes that the requests at the places above `i`, up to `j`, lose in the class that is the need at `j`.
    pub fn waste(&self, i: usize, j: usize) -> u64
        requires order { i < j }
        requires within { j ≤ places self.now.counts self.now.step }
        ensures waste { result ≡ span_waste self.now.counts self.now.step i j }
        ensures small { result < 2 ^ 58 }
    {
        let payload = u64::from(GRANULE_BYTES) * (u64::from(self.need(j)) - 1);
        let (requests_before, requests) = (self.requests_up_to(i), self.requests_up_to(j));
        let (bytes_before, bytes) = (self.bytes_up_to(i), self.bytes_up_to(j));
        payload * (requests - requests_before) - (bytes - bytes_before)
    }

    /// The number of requests counted up to a place, which need at most what stands there; 0 at place 0.
    pub fn requests_up_to(&self, place: usize) -> u64
        requires { place ≤ places self.now.counts self.now.step }
        ensures requests { let high = need_at self.now.counts self.now.step place in
            result ≡ counted_up_to self.now.counts self.now.step high }
        ensures valid { IsSpanned self.now }
    {
        self.counted[place]
    }

    /// How many bytes these requests asked for.
    pub fn bytes_up_to(&self, place: usize) -> u64
        requires { place ≤ places self.now.counts self.now.step }
        ensures { let high = need_at self.now.counts self.now.step place in
            result ≡ bytes_up_to self.now.counts self.now.step high }
    {
        self.bytes[place]
    }
}

// whether the last of the needs is this one
fn is_last(needs: &[u16], need: u16) -> bool
    requires { 0 < need }
    ensures { IsTrue result ↔ (last_need needs.now ≡ need) }
{
    needs.last().is_some_and(|last| *last == need)
}

// what a request of n bytes needs, rounded up to the step
fn rounded_need(n: u32, step: u8) -> u16
    requires size { n ≤ LARGEST_COUNTED }
    requires step { IsStep step }
    ensures need { result ≡ rounded_need step n }
    ensures some { 0 < result }
{
    round_up(need(n), step) as u16
}
