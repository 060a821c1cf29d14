ghost use Rattle.std.specs.Prelude.{◌≡◌, ℕ, ◌+◌, ◌*◌, ◌^◌, ◌<◌, ◌≤◌, [], ◌∷◌, length, slice_index, IfOk, IfSome, IsTrue};
ghost use Rattle.potential_check.specs.Footprints.SnapshotSums.{AreColumnSums, AreCuts, AreMostIn, AreNarrow, AreScaled, AreSumsAt};
ghost use Rattle.potential_check.specs.Footprints.SnapshotSums.{AreWritten, Ascends, HoldsSnapshots, IsRaised, IsRaisedBy, MayRaise};
ghost use Rattle.tuner_theory.specs.Lists.{lists_of};
ghost use Rattle.tuner_theory.specs.Footprint.{footprint_between};
ghost use Rattle.tuner_theory.specs.Growing.{IsGrowing};
ghost use Rattle.tuner_theory.specs.Spans.{need_at, places};
ghost use Rattle.class_table.specs.Sizes.{granule_bytes};
ghost use Rattle.potential_check.specs.Certificates.Spanned.{IsSpanned};
ghost use Rattle.class_table.specs.declared.sizes.TheConstants.{LARGEST_COUNTED};
ghost use Rattle.history_count.specs.CountedLines.{AreSizes};
ghost use Rattle.tuner_theory.specs.Histories.{peaks};
ghost use Rattle.tuner_theory.specs.Intervals.{span_cost};
ghost use Rattle.tuner_theory.specs.Profiles.{Covers, greatest_count};

use crate::certificates::Spans;
use class_table::{GRANULE_BYTES, LARGEST_COUNTED};
use history_count::{History, blocks_between, line_from};
use profile_count::class_end;
use std::alloc::{AllocError, Global};

/// For each snapshot, how many of its blocks need at most the need at each place. The footprint of a span follows from two of these numbers
/// of each snapshot.
#[derive(Drop)]
pub(crate) struct SnapshotSums<'a> {
    history: &'a History,
    spans: &'a Spans<'a>,
    // for each snapshot a number for each place from 0 on
    sums: Vec<Vec<u64>>,
    // the same where all of them fit 32 bits, of which more go into a vector, and else none
    narrow: Vec<Vec<u32>>,
    ghost holds: { HoldsSnapshots history.now.snapshots spans.now.counts spans.now.step (lists_of sums.items) },
    ghost small: { (i j : ℕ) → i < j → j ≤ places spans.now.counts spans.now.step
        → span_cost (footprint_between history.now.snapshots spans.now.step)
        spans.now.counts spans.now.step i j ≤ 2 ^ 60 },
    ghost same: { AreNarrow (lists_of narrow.items) (lists_of sums.items) },
    ghost grows: { let between = footprint_between history.now.snapshots spans.now.step in
        IsGrowing (span_cost between spans.now.counts spans.now.step) (places spans.now.counts spans.now.step) },
}

impl<'a> SnapshotSums<'a> {
    /// The sums of a history, the sizes of whose peaks `spans` has.
    pub(crate) fn new(
        alloc: Global,
        history: &'a History,
        spans: &'a Spans<'a>,
    ) -> Result<SnapshotSums<'a>, AllocError>
        requires spans { IsSpanned spans.now }
        requires peaks { Covers spans.now.counts (peaks history.now.snapshots) }
        ensures history { IfOk result (λ s. s.history.now ≡ history.now) }
        ensures spans { IfOk result (λ s. s.spans.now ≡ spans.now) }
    {
        let lines = history.lines();
        let cuts = cuts(alloc, lines.sizes, spans)?;
        let mut sums = Vec::new(alloc);
        for t in 0..lines.columns.len() {
            sums.push(sums_up_to(alloc, &lines.columns[t], &cuts)?)?;
        }
        let narrow = narrow_sums(alloc, &sums)?;
        Ok(SnapshotSums {
            history,
            spans,
            sums,
            narrow,
        })
    }

    /// How many places there are.
    pub(crate) fn places(&self) -> usize
        ensures { result ≡ places self.now.spans.now.counts self.now.spans.now.step }
    {
        self.spans.places()
    }

    /// Writes the footprint of the span from place i to each later place.
    pub(crate) fn write_from(&self, i: usize, costs: &mut [u64])
        requires within { i < places self.now.spans.now.counts self.now.spans.now.step }
        requires size { length costs.old ≡ places self.now.spans.now.counts self.now.spans.now.step + 1 }
        ensures size { length costs.new ≡ length costs.old }
        ensures costs { let s = self.now in (j : ℕ) → i < j → j ≤ places s.spans.now.counts s.spans.now.step
            → slice_index costs.new j
            ≡ span_cost (footprint_between s.history.now.snapshots s.spans.now.step)
            s.spans.now.counts s.spans.now.step i j }
    {
        if self.narrow.is_empty() {
            self.write_wide(i, costs);
        } else {
            self.write_narrow(i, costs);
        }
    }

    // by the sums of 64 bits
    fn write_wide(&self, i: usize, costs: &mut [u64])
        requires within { i < places self.now.spans.now.counts self.now.spans.now.step }
        requires size { length costs.old ≡ places self.now.spans.now.counts self.now.spans.now.step + 1 }
        ensures { let s = self.now in
            AreWritten s.history.now.snapshots s.spans.now.counts s.spans.now.step i (length costs.new) costs.new }
    {
        self.write_most(i, costs);
        for j in i + 1..self.spans.places() + 1 {
            costs[j] *= self.class_bytes(j);
        }
    }

    // writes the most blocks of the span from place i to each later place
    fn write_most(&self, i: usize, most: &mut [u64])
        requires within { i < places self.now.spans.now.counts self.now.spans.now.step }
        requires size { length most.old ≡ places self.now.spans.now.counts self.now.spans.now.step + 1 }
        ensures { let s = self.now in
            AreScaled s.history.now.snapshots s.spans.now.counts s.spans.now.step i (i + 1) most.new }
    {
        clear(most);
        for t in 0..self.sums.len() {
            raise(self.sums_at(t), i, most);
        }
    }

    // by the sums of 32 bits, some places at once
    fn write_narrow(&self, i: usize, costs: &mut [u64])
        requires within { i < places self.now.spans.now.counts self.now.spans.now.step }
        requires size { length costs.old ≡ places self.now.spans.now.counts self.now.spans.now.step + 1 }
        requires some { 0 < length self.now.narrow.items }
        ensures { let s = self.now in
            AreWritten s.history.now.snapshots s.spans.now.counts s.spans.now.step i (length costs.new) costs.new }
    {
        let mut start = i + 1;
        while start < costs.len() {
            let stop = (start + LANES).min(costs.len());
            self.write_some(i, start, stop, costs);
            start = stop;
        }
    }

    // writes the footprint of the span from place i to each place from `start` to below `stop`
    fn write_some(&self, i: usize, start: usize, stop: usize, costs: &mut [u64])
        requires after { i < start }
        requires order { start < stop }
        requires few { stop ≤ start + LANES }
        requires within { stop ≤ length costs.old }
        requires some { 0 < length self.now.narrow.items }
        requires before { let s = self.now in
            AreWritten s.history.now.snapshots s.spans.now.counts s.spans.now.step i start costs.old }
        ensures { let s = self.now in
            AreWritten s.history.now.snapshots s.spans.now.counts s.spans.now.step i stop costs.new }
    {
        let mut most = [0u32; LANES];
        self.raise_some(i, start, stop, &mut most);
        // (a slice of its own: then the compiler takes some places at once)
        let needs = self.spans.needs();
        for j in start..stop {
            costs[j] = u64::from(most[j - start]) * need_bytes(needs[j - 1]);
        }
    }

    // writes the most blocks of the same spans into the first numbers
    fn raise_some(&self, i: usize, start: usize, stop: usize, most: &mut [u32])
        requires after { i < start }
        requires order { start ≤ stop }
        requires within { stop ≤ places self.now.spans.now.counts self.now.spans.now.step + 1 }
        requires few { stop ≤ start + length most.old }
        requires some { 0 < length self.now.narrow.items }
        ensures size { length most.new ≡ length most.old }
        ensures most { let snapshots = self.now.history.now.snapshots in let spans = self.now.spans.now in
            AreMostIn snapshots spans.counts spans.step i start stop (length snapshots) most.new }
    {
        clear_32(most);
        let eights = self.narrow.len() / 8;
        for e in 0..eights {
            self.raise_eight_from(8 * e, i, start, stop, most);
        }
        self.raise_rest(8 * eights, i, start, stop, most);
    }

    // raises the numbers by the snapshots after the first `done`, at most eight
    fn raise_rest(&self, done: usize, i: usize, start: usize, stop: usize, most: &mut [u32])
        requires after { i < start }
        requires order { start ≤ stop }
        requires within { stop ≤ places self.now.spans.now.counts self.now.spans.now.step + 1 }
        requires few { stop ≤ start + length most.old }
        requires done { done ≤ length self.now.narrow.items }
        requires near { length self.now.narrow.items ≤ done + 8 }
        requires so_far { let snapshots = self.now.history.now.snapshots in let spans = self.now.spans.now in
            AreMostIn snapshots spans.counts spans.step i start stop done most.old }
        ensures size { length most.new ≡ length most.old }
        ensures most { let snapshots = self.now.history.now.snapshots in let spans = self.now.spans.now in
            AreMostIn snapshots spans.counts spans.step i start stop (length self.now.narrow.items) most.new }
    {
        let count = self.narrow.len();
        if done < count && 8 <= count {
            // (the last eight: those that were taken before change nothing)
            self.raise_eight_from(count - 8, i, start, stop, most);
            return;
        }
        for t in done..count {
            raise_one(self.narrow_at(t), i, start, stop, most);
        }
    }

    // raises the numbers by the eight snapshots from t on, of which the first may have been taken before
    fn raise_eight_from(&self, t: usize, i: usize, start: usize, stop: usize, most: &mut [u32])
        requires after { i < start }
        requires order { start ≤ stop }
        requires within { stop ≤ places self.now.spans.now.counts self.now.spans.now.step + 1 }
        requires few { stop ≤ start + length most.old }
        requires eight { t + 8 ≤ length self.now.narrow.items }
        ensures size { length most.new ≡ length most.old }
        ensures most { let snapshots = self.now.history.now.snapshots in let spans = self.now.spans.now in (done : ℕ)
            → t ≤ done → done ≤ t + 8 → AreMostIn snapshots spans.counts spans.step i start stop done most.old
            → AreMostIn snapshots spans.counts spans.step i start stop (t + 8) most.new }
    {
        raise_eight(
            self.narrow_at(t),
            self.narrow_at(t + 1),
            self.narrow_at(t + 2),
            self.narrow_at(t + 3),
            self.narrow_at(t + 4),
            self.narrow_at(t + 5),
            self.narrow_at(t + 6),
            self.narrow_at(t + 7),
            i,
            start,
            stop,
            most,
        );
    }

    // the bytes of a block of the class that is the need at a place
    #[inline(always)]
    fn class_bytes(&self, j: usize) -> u64
        requires some { 0 < j }
        requires within { j ≤ places self.now.spans.now.counts self.now.spans.now.step }
        ensures { result ≡ granule_bytes * need_at self.now.spans.now.counts self.now.spans.now.step j }
    {
        need_bytes(self.spans.need(j))
    }

    // the sums of a snapshot
    fn sums_at(&self, t: usize) -> &[u64]
        requires { t < length self.now.sums.items }
        ensures { let s = self.now in
            AreSumsAt s.history.now.snapshots s.spans.now.counts s.spans.now.step (lists_of s.sums.items) t result.now }
    {
        &self.sums[t]
    }

    // the same as numbers of 32 bits
    fn narrow_at(&self, t: usize) -> &[u32]
        requires { t < length self.now.narrow.items }
        ensures { let s = self.now in
            AreSumsAt s.history.now.snapshots s.spans.now.counts s.spans.now.step (lists_of s.sums.items) t result.now }
    {
        &self.narrow[t]
    }
}

// the bytes of so many granules
#[inline(always)]
fn need_bytes(need: u16) -> u64
    ensures { result ≡ granule_bytes * need }
{
    u64::from(GRANULE_BYTES) * u64::from(need)
}

// how many places are written at once: few enough that their numbers stay in the nearest cache
const LANES: usize = 256;

// sets all numbers to 0
fn clear(numbers: &mut [u64])
    ensures length { length numbers.new ≡ length numbers.old }
    ensures zeros { (j : ℕ) → slice_index numbers.new j ≡ 0 }
{
    for j in 0..numbers.len() {
        numbers[j] = 0;
    }
}

// raises the numbers after place i to what the sums grow from there on
fn raise(sums: &[u64], i: usize, numbers: &mut [u64])
    requires length { length numbers.old ≡ length sums.now }
    requires ascend { Ascends sums.now i }
    requires within { i < length sums.now }
    ensures { IsRaised sums.now i (length sums.now) numbers.old numbers.new }
{
    let before = sums[i];
    for j in i + 1..sums.len() {
        numbers[j] = numbers[j].max(sums[j] - before);
    }
}

// the same for numbers of 32 bits
fn clear_32(numbers: &mut [u32])
    ensures length { length numbers.new ≡ length numbers.old }
    ensures zeros { (j : ℕ) → slice_index numbers.new j ≡ 0 }
{
    for j in 0..numbers.len() {
        numbers[j] = 0;
    }
}

// raises the numbers of the places from `start` to below `stop` to what the sums grow from place i on
fn raise_one(sums: &[u32], i: usize, start: usize, stop: usize, numbers: &mut [u32])
    requires after { i < start }
    requires order { start ≤ stop }
    requires within { stop ≤ length sums.now }
    requires few { stop ≤ start + length numbers.old }
    requires ascend { Ascends sums.now i }
    ensures { IsRaisedBy (sums.now ∷ []) i start stop numbers.old numbers.new }
{
    let before = sums[i];
    for j in start..stop {
        numbers[j - start] = numbers[j - start].max(sums[j] - before);
    }
}

// the same by the sums of eight snapshots
fn raise_eight(
    s0: &[u32],
    s1: &[u32],
    s2: &[u32],
    s3: &[u32],
    s4: &[u32],
    s5: &[u32],
    s6: &[u32],
    s7: &[u32],
    i: usize,
    start: usize,
    stop: usize,
    numbers: &mut [u32],
)
    requires after { i < start }
    requires order { start ≤ stop }
    requires few { stop ≤ start + length numbers.old }
    requires rows { let rows = s0.now ∷ s1.now ∷ s2.now ∷ s3.now ∷ s4.now ∷ s5.now ∷ s6.now ∷ s7.now ∷ [] in
        MayRaise rows i stop }
    ensures { let rows = s0.now ∷ s1.now ∷ s2.now ∷ s3.now ∷ s4.now ∷ s5.now ∷ s6.now ∷ s7.now ∷ [] in
        IsRaisedBy rows i start stop numbers.old numbers.new }
{
    let (b0, b1, b2, b3) = (s0[i], s1[i], s2[i], s3[i]);
    let (b4, b5, b6, b7) = (s4[i], s5[i], s6[i], s7[i]);
    for j in start..stop {
        let two = numbers[j - start].max(s0[j] - b0).max(s1[j] - b1);
        let four = two.max(s2[j] - b2).max(s3[j] - b3);
        let six = four.max(s4[j] - b4).max(s5[j] - b5);
        numbers[j - start] = six.max(s6[j] - b6).max(s7[j] - b7);
    }
}

// the sums as numbers of 32 bits, and none where one of them does not fit
fn narrow_sums(alloc: Global, sums: &[Vec<u64>]) -> Result<Vec<Vec<u32>>, AllocError>
    ensures { IfOk result (λ narrow. AreNarrow (lists_of narrow.items) (lists_of sums.now)) }
{
    let mut narrow = Vec::new(alloc);
    for t in 0..sums.len() {
        match narrow_row(alloc, &sums[t])? {
            Some(row) => narrow.push(row)?,
            None => return Ok(Vec::new(alloc)),
        }
    }
    Ok(narrow)
}

// numbers as numbers of 32 bits
fn narrow_row(alloc: Global, numbers: &[u64]) -> Result<Option<Vec<u32>>, AllocError>
    ensures { IfOk result (λ row. IfSome row (λ row. row.items ≡ numbers.now)) }
{
    if !are_narrow(numbers) {
        return Ok(None);
    }
    let mut row = vec![in alloc; 0u32; numbers.len()]?;
    copy_narrow(numbers, &mut row);
    Ok(Some(row))
}

// whether all numbers fit 32 bits
fn are_narrow(numbers: &[u64]) -> bool
    ensures { IsTrue result → (j : ℕ) → j < length numbers.now → slice_index numbers.now j < 2 ^ 32 }
{
    // (all are looked at: then the compiler takes some at once)
    let mut are_narrow = true;
    for j in 0..numbers.len() {
        are_narrow &= numbers[j] <= u64::from(u32::MAX);
    }
    are_narrow
}

// copies numbers that fit 32 bits
fn copy_narrow(numbers: &[u64], row: &mut [u32])
    requires size { length row.old ≡ length numbers.now }
    requires narrow { (j : ℕ) → j < length numbers.now → slice_index numbers.now j < 2 ^ 32 }
    ensures { row.new ≡ numbers.now }
{
    for j in 0..numbers.len() {
        row[j] = numbers[j] as u32;
    }
}

// for each place from 1 on: how many lines its class serves, of all before it too
fn cuts(alloc: Global, sizes: &[u32], spans: &Spans<'_>) -> Result<Vec<usize>, AllocError>
    requires sizes { AreSizes sizes.now }
    ensures { IfOk result (λ cuts. AreCuts sizes.now spans.now.counts spans.now.step cuts.items) }
{
    let mut cuts = Vec::with_capacity(alloc, spans.places())?;
    let mut line = 0;
    for place in 1..spans.places() + 1 {
        line = line_from(sizes, line, class_end(spans.need(place)));
        cuts.push(line)?;
    }
    Ok(cuts)
}

// the sums of a column up to each cut, after 0
fn sums_up_to(alloc: Global, column: &[u32], cuts: &[usize]) -> Result<Vec<u64>, AllocError>
    requires few { (k : ℕ) → slice_index column.now k ≤ greatest_count }
    requires size { length column.now ≤ LARGEST_COUNTED + 1 }
    requires within { (p : ℕ) → p < length cuts.now → slice_index cuts.now p ≤ length column.now }
    requires ascend { (p q : ℕ) → p ≤ q → q < length cuts.now → slice_index cuts.now p ≤ slice_index cuts.now q }
    ensures { IfOk result (λ sums. AreColumnSums column.now cuts.now sums.items) }
{
    let mut sums = Vec::with_capacity(alloc, cuts.len() + 1)?;
    sums.push(0)?;
    let mut total = 0;
    let mut start = 0;
    for p in 0..cuts.len() {
        total += blocks_between(column, start, cuts[p]);
        start = cuts[p];
        sums.push(total)?;
    }
    Ok(sums)
}
