//! Runs a list of operations on the machine, for comparison with other machines: `scripts/tests/test_qemu.py` gives QEMU the same list.
//!
//! Each line of standard input is an operation: its word, and its numbers in hexadecimal. For each the program writes a line: the answer,
//! and the register afterwards. `answer` has the operations. A line that is none ends the program.
#![tactic(auto)]

mod answer;
mod operations;
mod sums;

use granule_memory::Memory;
use std::io;
use std::io::{BufRead, BufReader, BufWriter, Write};
use tag_machine::Machine;

// the machine before the first operation `machine`
const GRANULES: u32 = 64;

const SEED: u16 = 1;

fn main(rt: HostRuntime) -> io::Result<()> {
    let mut machine = Machine::new(Memory::new(rt.alloc(), GRANULES)?, SEED);
    let mut out = BufWriter::new(rt.alloc(), io::writer(&rt))?;
    for line in BufReader::new(rt.alloc(), rt.reader())?.lines(rt.alloc()) {
        let line = line?;
        let Some(answer) = operations::answer_line(rt.alloc(), &mut machine, line.as_str())? else {
            return Err(io::ErrorKind::InvalidData.into());
        };
        let (tag, seed) = machine.rgsr();
        writeln!(out, "{answer} seed {seed} tag {tag}")?;
    }
    out.flush()
}
