//! How often a source is asked for its costs, and the wastes of spans.
ghost use Rattle.std.specs.Prelude.{◌≡◌, ℕ, ◌+◌, ◌-◌, ◌*◌, ◌^◌, ◌<◌, ◌≤◌, refl};
ghost use Rattle.std.proofs.Common.{arith};
ghost use Rattle.std.proofs.Math.Nat.{mul-le-mul};

use crate::tests::support::same;
use class_table::is_step;
use class_tuner::{CostSource, Costs, fill_rows, tune};
use profile_count::Profile;
use std::process::Abort;
use std::test::Fail;

// the places of the source below
const PLACES: usize = 1023;

// a source of costs that are the squares of the spans' lengths
#[derive(Drop)]
struct Squares {
    calls: u64,
}

impl CostSource for Squares {
    ghost cost = { λ s i j. (j - i) * (j - i) };

    ghost place_count = { λ s. 1023 };

    ghost call_count = { λ s. s.calls };

    ghost with_calls = { λ s n. record { calls = n } };

    fn places(&self) -> usize {
        PLACES
    }

    fn calls(&self) -> u64 {
        self.calls
    }

    fn at(&mut self, i: usize, j: usize) -> u64 {
        self.calls += 1;
        let length = (j - i) as u64;
        length * length
    }

    ghost is_small = { λ s i j lt le. let short : j - i ≤ 1023 = Prim.omega arith in Prim.omega (arith, mul-le-mul short short) };

    ghost is_crossing = { λ s a b c e ab bc ce le.
        let left : c - a ≡ (b - a) + (c - b) = Prim.omega arith in
        let right : e - b ≡ (c - b) + (e - c) = Prim.omega arith in
        let whole : e - a ≡ (b - a) + (c - b) + (e - c) = Prim.omega arith in
        Prim.rw (left, right, whole) (Prim.omega arith) };

    ghost sets_calls = { λ s n. refl };

    ghost keeps_cost = { λ s n. refl };

    ghost keeps_places = { λ s n. refl };

    ghost keeps_last = { λ s m n. refl };

    ghost keeps_all = { λ s. refl };
}

// three requests of 16 bytes and one of 40; one request each of 16, 32 and 48 bytes
const TWO_SIZES: &[u8] = b"16 3\n40 1\n";

const THREE_SIZES: &[u8] = b"16 1\n32 1\n48 1\n";

// one request of no bytes; one that the largest class alone serves, and a larger one
const NO_BYTES: &[u8] = b"0 1\n";

const LARGEST: &[u8] = b"16360 1\nlarge 1\n";

// profiles with a limit and a step each
const CASES: &[(&[u8], u8, u8)] = &[
    (TWO_SIZES, 1, 1),
    (TWO_SIZES, 2, 1),
    (TWO_SIZES, 32, 1),
    (TWO_SIZES, 2, 4),
    (THREE_SIZES, 2, 1),
    (THREE_SIZES, 2, 2),
    (THREE_SIZES, 1, 8),
    (NO_BYTES, 1, 1),
    (LARGEST, 1, 1),
    (b"", 1, 1),
];

#[test]
fn counts_what_it_asks(rt: HostRuntime) -> Result<(), Fail> {
    for (text, limit, step) in CASES {
        let calls = calls(&rt, text, *limit, *step)?;
        let evaluations = evaluations(&rt, text, *limit, *step)?;
        same(&rt, &evaluations, &calls, &(limit, step));
    }
    Ok(())
}

// how often the costs of a profile are asked for as its rows are filled
fn calls(rt: &(impl Abort + AllocGlobal), text: &[u8], limit: u8, step: u8) -> Result<u64, Fail> {
    assert!(rt; limit >= 1 && limit <= 32 && is_step(step));
    let profile = Profile::read(rt.alloc(), text)?;
    let mut costs = Costs::new(rt.alloc(), &profile, step)?;
    same(rt, &costs.calls(), &0, &"calls at first");
    let _filled = fill_rows(rt.alloc(), &mut costs, limit)?;
    Ok(costs.calls())
}

// what the tuner says of it
fn evaluations(
    rt: &(impl Abort + AllocGlobal),
    text: &[u8],
    limit: u8,
    step: u8,
) -> Result<u64, Fail> {
    assert!(rt; limit >= 1 && limit <= 32 && is_step(step));
    let profile = Profile::read(rt.alloc(), text)?;
    let tuned = tune(rt.alloc(), &profile, limit, step, false)?;
    let rows = tuned.sheet().rows.len();
    same(rt, &rows, &(limit as usize), &(limit, step));
    Ok(tuned.evaluations())
}

#[test]
fn evaluations_of_small_profiles(rt: HostRuntime) -> Result<(), Fail> {
    // two in row 1; in row 2 the one end after place 1, and then both ends after place 0
    let of_two = evaluations(&rt, TWO_SIZES, 2, 1)?;
    same(&rt, &of_two, &5, &"two sizes");
    let of_none = evaluations(&rt, b"", 1, 1)?;
    same(&rt, &of_none, &0, &"no size");
    Ok(())
}

// the places of a profile, and the waste of each span of them
const TWO_SPANS: &[(usize, usize, u64)] = &[(0, 1, 0), (0, 2, 104), (1, 2, 8)];

const THREE_SPANS: &[(usize, usize, u64)] = &[
    (0, 1, 0),
    (0, 2, 16),
    (0, 3, 48),
    (1, 2, 0),
    (1, 3, 16),
    (2, 3, 0),
];

#[test]
fn span_wastes_of_small_profiles(rt: HostRuntime) -> Result<(), Fail> {
    has_wastes(&rt, TWO_SIZES, 2, TWO_SPANS)?;
    has_wastes(&rt, THREE_SIZES, 3, THREE_SPANS)
}

// a profile has so many places and these wastes of spans
fn has_wastes(
    rt: &(impl Abort + AllocGlobal),
    text: &[u8],
    places: usize,
    spans: &[(usize, usize, u64)],
) -> Result<(), Fail> {
    let profile = Profile::read(rt.alloc(), text)?;
    let mut costs = Costs::new(rt.alloc(), &profile, 1)?;
    same(rt, &costs.places(), &places, &"places");
    asks(rt, &mut costs, spans);
    Ok(())
}

// each of these wastes is one call
fn asks(rt: &impl Abort, costs: &mut Costs<'_>, spans: &[(usize, usize, u64)]) {
    for (i, j, waste) in spans {
        assert!(rt; *i < *j && *j <= costs.places() && costs.calls() < 6);
        same(rt, &costs.at(*i, *j), waste, &(i, j));
    }
    same(rt, &costs.calls(), &(spans.len() as u64), &"calls");
}

#[test]
fn halves_a_thousand_places(rt: HostRuntime) -> Result<(), Fail> {
    let mut squares = Squares { calls: 0 };
    let _filled = fill_rows(rt.alloc(), &mut squares, 32)?;
    assert!(rt; squares.calls() > 0 && squares.calls() <= 359_776);
    Ok(())
}
