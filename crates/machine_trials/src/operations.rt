//! The operations.
ghost use Rattle.std.specs.Prelude.{◌≡◌, ◌≤◌, ◌↔◌, IsTrue};

use crate::answer::Answer;
use crate::sums::sums;
use granule_memory::Memory;
use machine_theory::{
    FARTHEST_MOVE, FEWEST_GRANULES, LARGEST_TAG_STEP, LONGEST_ACCESS, MOST_GRANULES,
};
use std::alloc::{AllocError, Global};
use tag_machine::{Fault, Machine};

const LONGEST: usize = LONGEST_ACCESS as usize;

// From one byte of a store to the next.
const STEP_OF_STORED: u8 = 37;

/// The answer to the operation that the line spells, or `None` if it spells none. The error is that memory ran out.
///
///     machine R SEED                  a new machine with R granules
///     irg XN XM     gmi XN XM         addg XN U6 U4     subg XN U6 U4
///     ldg XT XN     stg XT XN         st2g XT XN        stzg XT XN
///     load A N      store A N B       N bytes from address A on; a store has the bytes B, B + 37, B + 74, .. modulo 256
///     sums                            of all tags and of all bytes
pub fn answer_line(
    alloc: Global,
    machine: &mut Machine,
    line: &str,
) -> Result<Option<Answer>, AllocError> {
    let mut words = line.split(' ');
    let word = words.next().unwrap_or("");
    let mut numbers = Vec::new(alloc);
    for text in words {
        let Ok(number) = u64::from_str_radix(text, 16) else {
            return Ok(None);
        };
        numbers.push(number)?;
    }
    answer(alloc, machine, word, numbers.as_slice())
}

fn answer(
    alloc: Global,
    machine: &mut Machine,
    word: &str,
    numbers: &[u64],
) -> Result<Option<Answer>, AllocError> {
    let answer = match (word, numbers) {
        ("machine", [granules, seed]) => return new_machine(alloc, machine, *granules, *seed),
        ("irg", [xn, xm]) => Answer::Value(machine.irg(*xn, *xm)),
        ("gmi", [xn, xm]) => Answer::Value(machine.gmi(*xn, *xm)),
        ("addg", [xn, u6, u4]) if is_move(*u6, *u4) => Answer::Value(machine.addg(
            *xn, *u6 as u8, *u4 as u8,
        )),
        ("subg", [xn, u6, u4]) if is_move(*u6, *u4) => Answer::Value(machine.subg(
            *xn, *u6 as u8, *u4 as u8,
        )),
        ("ldg", [xt, xn]) => match machine.ldg(*xt, *xn) {
            Ok(xt) => Answer::Value(xt),
            Err(fault) => Answer::Refused(fault),
        },
        ("stg", [xt, xn]) => answer_of_outcome(machine.stg(*xt, *xn)),
        ("st2g", [xt, xn]) => answer_of_outcome(machine.st2g(*xt, *xn)),
        ("stzg", [xt, xn]) => answer_of_outcome(machine.stzg(*xt, *xn)),
        ("load", [address, length]) if is_length(*length) => load_bytes(
            machine,
            *address,
            *length as usize,
        ),
        ("store", [address, length, first]) if is_length(*length) => store_bytes(
            machine,
            *address,
            *length as usize,
            (*first % 256) as u8,
        ),
        ("sums", []) => {
            let (tags, bytes) = sums(machine.memory());
            Answer::Sums(tags, bytes)
        }
        _ => return Ok(None),
    };
    Ok(Some(answer))
}

// a new machine; `None` if there is none of so many granules or with this seed
fn new_machine(
    alloc: Global,
    machine: &mut Machine,
    granules: u64,
    seed: u64,
) -> Result<Option<Answer>, AllocError> {
    let (Ok(granules), Ok(seed)) = (u32::try_from(granules), u16::try_from(seed)) else {
        return Ok(None);
    };
    if granules < FEWEST_GRANULES || MOST_GRANULES < granules || seed == 0 {
        return Ok(None);
    }
    *machine = Machine::new(Memory::new(alloc, granules)?, seed);
    Ok(Some(Answer::Done))
}

// whether ADDG and SUBG take these numbers
fn is_move(u6: u64, u4: u64) -> bool
    ensures { IsTrue result ↔ (u6 ≤ FARTHEST_MOVE) × (u4 ≤ LARGEST_TAG_STEP) }
{
    u6 <= u64::from(FARTHEST_MOVE) && u4 <= u64::from(LARGEST_TAG_STEP)
}

// whether an access may have so many bytes
fn is_length(n: u64) -> bool
    ensures { IsTrue result ↔ (1 ≤ n) × (n ≤ LONGEST_ACCESS) }
{
    1 <= n && n <= u64::from(LONGEST_ACCESS)
}

fn answer_of_outcome(outcome: Result<(), Fault>) -> Answer {
    match outcome {
        Ok(()) => Answer::Done,
        Err(fault) => Answer::Refused(fault),
    }
}

fn load_bytes(machine: &Machine, address: u64, length: usize) -> Answer
    requires { (1 ≤ length) × (length ≤ LONGEST_ACCESS) }
{
    let mut bytes = [0; LONGEST];
    match machine.load(address, &mut bytes[..length]) {
        Ok(()) => Answer::Bytes(bytes, length),
        Err(fault) => Answer::Refused(fault),
    }
}

fn store_bytes(machine: &mut Machine, address: u64, length: usize, first: u8) -> Answer
    requires { (1 ≤ length) × (length ≤ LONGEST_ACCESS) }
{
    let mut bytes = [0; LONGEST];
    let mut next = first;
    for byte in bytes.iter_mut() {
        *byte = next;
        next = next.wrapping_add(STEP_OF_STORED);
    }
    answer_of_outcome(machine.store(address, &bytes[..length]))
}
