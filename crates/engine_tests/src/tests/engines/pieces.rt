//! A runner for the engines over traces: each input is read whole, in two pieces cut at each place, and a byte at a time.
ghost use Rattle.std.specs.Prelude.{Some};
ghost use Rattle.byte_streams.specs.Streams.{source_state};

use crate::tests::calls::call_on;
use crate::tests::streams::sink_with_room;
use crate::tests::support::{end_text, same};
use mte_engine::{ByteSource, Call, Failure, History};
use std::process::Abort;
use std::test::Fail;

/// The input of an engine, what it writes for it, and how it ends.
#[derive(Clone, Copy)]
pub struct Case(pub &'static str, pub &'static str, pub &'static str);

/// Runs the engine on each case, however the input is cut.
pub fn check(rt: &(impl Abort + AllocGlobal), call: Call, cases: &[Case]) -> Result<(), Fail> {
    for Case(input, written, ends) in cases {
        check_cuts(rt, call, input, written, ends)?;
    }
    Ok(())
}

// Runs the engine on an input that is cut at each place, and on one of single bytes.
fn check_cuts(
    rt: &(impl Abort + AllocGlobal),
    call: Call,
    input: &str,
    written: &str,
    wanted: &str,
) -> Result<(), Fail> {
    for first in 0..=input.len() {
        check_cut(rt, call, input, written, wanted, (first, usize::MAX))?;
    }
    check_cut(rt, call, input, written, wanted, (1, 1))
}

// Runs the engine on one input: so many bytes in the first read, and at most so many in each one after it.
fn check_cut(
    rt: &(impl Abort + AllocGlobal),
    call: Call,
    input: &str,
    written: &str,
    wanted: &str,
    (first, most): (usize, usize),
) -> Result<(), Fail> {
    let mut from = Cut {
        rest: input.as_bytes(),
        reads: History::new(),
        next: first,
        most,
    };
    let mut to = sink_with_room(rt.alloc(), 4096)?;
    let end = call_on(rt, call, &mut from, &mut to);
    let ends = end_text(rt.alloc(), end)?;
    same(rt, &ends.as_str(), &wanted, &(input, first));
    let text = to.text.as_slice();
    same(rt, &text, &written.as_bytes(), &(input, first));
    Ok(())
}

/// Gives the bytes of a text: `next` of them in the next read, at most `most` in each one after it; 0 stands for 1.
#[derive(Drop)]
struct Cut<'a> {
    rest: &'a [u8],
    reads: History,
    next: usize,
    most: usize,
}

impl<'a> ByteSource for Cut<'a> {
    ghost state = { λ s. source_state (Some s.rest.now) s.reads };

    fn read(&mut self, buf: &mut [u8]) -> Result<usize, Failure> {
        let n = self.rest.len().min(buf.len()).min(self.next.max(1));
        let (piece, rest) = self.rest.split_at(n);
        buf[..n].copy_from_slice(piece);
        self.rest = rest;
        self.next = self.most;
        self.reads = self.reads.and_moved(buf, n);
        Ok(n)
    }
}
