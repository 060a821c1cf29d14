ghost use Rattle.std.specs.Prelude.{◌≡◌, ◌≤◌, ◌*◌, IfOk};
ghost use Rattle.class_table.specs.Steps.{IsStep};
ghost use Rattle.class_table.specs.declared.sizes.TheConstants.{MOST_NEEDS};
ghost use Rattle.class_tuner.specs.Fits.Timelines.Results.{IsFound};
ghost use Rattle.class_tuner.specs.Fits.Timelines.Rounds.{AreRoundCosts};
ghost use Rattle.class_tuner.specs.declared.fits.timelines.timeline_fit.FitOutcome.TheVariants.{Between, Least};
ghost use Rattle.potential_check.specs.Footprints.CallCounts.{span_count};

use crate::fits::timelines::moments::{one_moment, with_moments};
use crate::fits::timelines::round::{Round, better, round_over};
use class_table::{ClassTable, MOST_CLASSES};
use history_count::{Timeline, TimelineIndex};
use potential_check::{Certificate, Fit};
use std::alloc::{AllocError, Global};

/// The most rounds that the program makes.
pub const MOST_ROUNDS: u32 = 1024;

/// What was found over a timeline.
#[derive(Debug, Drop)]
pub enum FitOutcome {
    /// No table takes less over every moment. The fit is that of the history of some moments, which are named by their numbers.
    Least {
        /// The fit.
        fit: Fit,
        /// Of how many events each of the moments comes after.
        numbers: Vec<usize>,
    },
    /// The rounds ended before that was shown.
    Between {
        /// The table that took least of those that were tried, the first of them.
        table: ClassTable,
        /// What it takes over the timeline, in bytes.
        takes: u64,
        /// The most that a round's fit takes over its moments, in bytes: no table takes less over the timeline.
        least: u64,
    },
}

/// The result of `fit_over`.
#[derive(Debug, Drop)]
pub struct TimelineFitResult {
    /// What was found.
    pub found: FitOutcome,
    /// How many rounds were made.
    pub rounds: u32,
    /// How many costs of spans were computed in them. This is for callers of the library; the program does not print it.
    pub evaluations: u64,
}

/// The class table of least footprint over every moment of a timeline, of at most `limit` (1 to 32) classes that are multiples of `step` (1,
/// 2, 4 or 8 granules), and where `forced` have the largest class. It is fitted over some moments, in at least one round and at most `rounds`. If the last table then still takes more
/// over the whole timeline, the result is an interval. The only error is that the allocator refuses memory.
pub fn fit_over(
    alloc: Global,
    timeline: &Timeline,
    limit: u8,
    step: u8,
    forced: bool,
    rounds: u32,
) -> Result<TimelineFitResult, AllocError>
    requires some { 1 ≤ limit }
    requires few { limit ≤ MOST_CLASSES }
    requires step { IsStep step }

    // the first round that shows a fit, or what all rounds give where none does
    ensures found { IfOk result (λ fitted. IsFound timeline.now step limit forced rounds fitted.rounds fitted.found) }
    // the footprint of each span of each round was asked for once
    ensures exact { IfOk result
        (λ fitted. AreRoundCosts timeline.now step limit forced fitted.rounds fitted.evaluations) }
    ensures bounded { IfOk result (λ fitted. fitted.evaluations ≤ fitted.rounds * span_count MOST_NEEDS) }
{
    let events = timeline.events();
    let index = TimelineIndex::new(alloc, events)?;
    let decisive = index.largest_moment();
    let mut numbers = one_moment(alloc, decisive)?;
    let mut best = round_over(alloc, &index, &numbers, limit, step, forced)?;
    let mut evaluations = best.evaluations;
    if best.is_tight() {
        return Ok(least_of(best, numbers, 1, evaluations));
    }
    numbers = with_moments(alloc, numbers, decisive, &best.firsts, events.len())?;
    let mut least = best.fit.cost;
    for made in 1..rounds {
        let next = round_over(alloc, &index, &numbers, limit, step, forced)?;
        evaluations += next.evaluations;
        if next.is_tight() {
            return Ok(least_of(next, numbers, made + 1, evaluations));
        }
        numbers = with_moments(alloc, numbers, decisive, &next.firsts, events.len())?;
        least = least.max(next.fit.cost);
        best = better(best, next);
    }
    Ok(interval_of(best, least, rounds.max(1), evaluations))
}

// the fit of the last of so many rounds
fn least_of(round: Round, numbers: Vec<usize>, rounds: u32, evaluations: u64) -> TimelineFitResult
    ensures { result ≡ record { found = Least round.fit numbers; rounds = rounds; evaluations = evaluations } }
{
    let Round {
        fit,
        takes: _takes,
        firsts: _firsts,
        evaluations: _evaluations,
    } = round;
    TimelineFitResult {
        found: FitOutcome::Least { fit, numbers },
        rounds,
        evaluations,
    }
}

// the table of a round, with a bound, after so many rounds
fn interval_of(round: Round, least: u64, rounds: u32, evaluations: u64) -> TimelineFitResult
    ensures { result ≡ record {
      found = Between round.fit.table round.takes least;
      rounds = rounds;
      evaluations = evaluations;
    } }
{
    let Round {
        fit,
        takes,
        firsts: _firsts,
        evaluations: _evaluations,
    } = round;
    let Certificate {
        table,
        limit: _limit,
        step: _step,
        forced: _forced,
        cost: _cost,
        rows: _rows,
        of: _of,
    } = fit;
    TimelineFitResult {
        found: FitOutcome::Between {
            table,
            takes,
            least,
        },
        rounds,
        evaluations,
    }
}
