//! The event of a text's first line, where that line spells one, read in one pass over its bytes. `line` judges every other line word by
//! word, which is slower and finds each fault. An event that is missing here is read by `line`.
ghost use Rattle.std.specs.Prelude.{◌≡◌, ◌≢◌, ◌≤◌, ◌<◌, ◌+◌, ◌^◌, ◌++◌, ◌∷◌, [], IfSome, length, nat_abs, slice_index, take};
ghost use Rattle.std.specs.Int.{to_le_bytes, w32};
ghost use Rattle.std.specs.Fmt.{decimal, signed_decimal};
ghost use Rattle.trace_event.specs.Ranges.{IsAccessOf, IsInRange, IsMove, IsRequest, IsVariable};
ghost use Rattle.line_text.specs.Hexadecimal.{hex};
ghost use Rattle.line_text.specs.Lines.{line_of};
ghost use Rattle.std.specs.Prelude.{codes};
ghost use Rattle.trace_reader.specs.TraceLine.{event_line};

use crate::hex_values::hex_value;
use trace_event::Event;

// A number of more digits is left to `line`.
const DIGITS: usize = 8;

// A shorter text is left to `line`. No line that is read here has as many bytes, so the compiler drops the tests of the length in `digits`.
const WINDOW: usize = 48;

// the bytes of a word
const WORD: usize = 4;

// the digits of 100, the first digit the lowest byte
const LEAST_DIGITS: u32 = 0x0030_3031;

// What a digit is more than in 100, and this, make less than 128, and a larger value makes more.
const ABOVE: u32 = 0x0076_7677;

// the highest bit of each digit's byte, and all bits of the byte after them
const HIGH_BITS: u32 = 0xff80_8080;

// the same for four digits: those of 1000, what makes less than 128 of them, and the highest bits
const LEAST_FOUR: u32 = 0x3030_3031;

const ABOVE_FOUR: u32 = 0x7676_7677;

const HIGH_BITS_OF_FOUR: u32 = 0x8080_8080;

/// The `Caller` that hands events out at once.
pub(crate) struct ImmediateCaller;

// The first four letters of the events' names, as words: the first letter is the lowest byte.
const MALL: u32 = 0x6c6c_616d;

const CALL: u32 = 0x6c6c_6163;

const REAL: u32 = 0x6c61_6572;

const FREE: u32 = 0x6565_7266;

const LOAD: u32 = 0x6461_6f6c;

const STOR: u32 = 0x726f_7473;

const ADDG: u32 = 0x6764_6461;

const SUBG: u32 = 0x6762_7573;

// the rest of the name of a realloc, and the space after it
const LOC: u32 = 0x2063_6f6c;

/// The event of the first line of a text, and the text after that line. `None` leaves the line to `line`, which finds an event or a fault.
/// Each `Caller` has a copy of its own: the compiler puts a function of this length into its caller only where it has no other.
#[inline(always)]
pub(crate) fn first_event<Caller>(text: &[u8]) -> Option<(Event, &[u8])>
    ensures spelled { IfSome result (λ found. text.now ≡ event_line found.0 ++ 10 ∷ found.1.now) }
    ensures range { IfSome result (λ found. IsInRange found.0) }
{
    if text.len() < WINDOW {
        return None;
    }
    let line = text;
    let (word, text) = first_word(line)?;
    // by the first letter, so that the compiler makes a table of jumps
    match (word % 256) as u8 {
        b'm' if word == MALL => request_of(MALL, 3, line),
        b'c' if word == CALL => request_of(CALL, 3, line),
        b'r' if word == REAL => request_of(REAL, 4, line),
        b'f' if word == FREE => free(text),
        b'l' if word == LOAD => load(text),
        // before `store`, though it is seldom: the program then tests for `store` first
        b's' if word == SUBG => move_of(SUBG, text),
        b's' if word == STOR => store(text),
        b'a' if word == ADDG => move_of(ADDG, text),
        _ => None,
    }
}

// Reads a request from its whole line, which begins with these letters. The rest of the name, from place `from` on, and the space after it
// are `loc ` for each request.
#[inline(always)]
fn request_of<'a>(letters: u32, from: usize, line: &'a [u8]) -> Option<(Event, &'a [u8])>
    requires letters { take 4 line.now ≡ to_le_bytes w32 letters }
    requires from { (letters ≡ REAL → from ≡ 4) × (letters ≢ REAL → from ≡ 3) }
    ensures spelled { IfSome result (λ found. line.now ≡ event_line found.0 ++ 10 ∷ found.1.now) }
    ensures range { IfSome result (λ found. IsInRange found.0) }
{
    let (v, n, after) = request(after_loc(from, line)?)?;
    match letters {
        MALL => Some((Event::Malloc { v, n }, after)),
        CALL => Some((Event::Calloc { v, n }, after)),
        REAL => Some((Event::Realloc { v, n }, after)),
        _ => None,
    }
}

// the text after `loc `, which begins at place `from`; the four bytes are compared as one word
#[inline(always)]
fn after_loc(from: usize, line: &[u8]) -> Option<&[u8]>
    requires { from ≤ length line.now }
    ensures { IfSome result (λ after. line.now ≡ take from line.now ++ codes "loc " ++ after.now) }
{
    let (word, after) = first_word(&line[from..])?;
    if word != LOC {
        return None;
    }
    Some(after)
}

// The functions below read the other events, each from the text after the first four letters of its name.
#[inline(always)]
fn move_of(letters: u32, text: &[u8]) -> Option<(Event, &[u8])>
    ensures spelled { IfSome result
        (λ found. to_le_bytes w32 letters ++ text.now ≡ event_line found.0 ++ 10 ∷ found.1.now) }
    ensures range { IfSome result (λ found. IsInRange found.0) }
{
    let (v, w, u6, u4, after) = move_pointer(after_name(b" ", text)?)?;
    match letters {
        ADDG => Some((Event::Addg { v, w, u6, u4 }, after)),
        SUBG => Some((Event::Subg { v, w, u6, u4 }, after)),
        _ => None,
    }
}

#[inline(always)]
fn free(text: &[u8]) -> Option<(Event, &[u8])>
    ensures spelled { IfSome result
        (λ found. to_le_bytes w32 FREE ++ text.now ≡ event_line found.0 ++ 10 ∷ found.1.now) }
    ensures range { IfSome result (λ found. IsInRange found.0) }
{
    let (v, after) = variable(b'\n', after_name(b" ", text)?)?;
    Some((Event::Free { v }, after))
}

#[inline(always)]
fn load(text: &[u8]) -> Option<(Event, &[u8])>
    ensures spelled { IfSome result
        (λ found. to_le_bytes w32 LOAD ++ text.now ≡ event_line found.0 ++ 10 ∷ found.1.now) }
    ensures range { IfSome result (λ found. IsInRange found.0) }
{
    let (v, off, len, after) = access(b'\n', after_name(b" ", text)?)?;
    Some((Event::Load { v, off, len }, after))
}

#[inline(always)]
fn store(text: &[u8]) -> Option<(Event, &[u8])>
    ensures spelled { IfSome result
        (λ found. to_le_bytes w32 STOR ++ text.now ≡ event_line found.0 ++ 10 ∷ found.1.now) }
    ensures range { IfSome result (λ found. IsInRange found.0) }
{
    let (v, off, len, text) = access(b' ', after_name(b"e ", text)?)?;
    let (byte, after) = byte(text)?;
    Some((Event::Store { v, off, len, byte }, after))
}

// the first four bytes of a text as a word, and the text after them
#[inline(always)]
fn first_word(text: &[u8]) -> Option<(u32, &[u8])>
    ensures { IfSome result (λ x. text.now ≡ to_le_bytes w32 x.0 ++ x.1.now) }
{
    let bytes = text.first_chunk::<WORD>()?;
    Some((u32::from_le_bytes(*bytes), &text[WORD..]))
}

// the text after a name
#[inline(always)]
fn after_name<'a>(name: &[u8], text: &'a [u8]) -> Option<&'a [u8]>
    ensures { IfSome result (λ after. text.now ≡ name.now ++ after.now) }
{
    if text.len() < name.len() {
        return None;
    }
    for (place, letter) in name.iter().enumerate() {
        if text[place] != *letter {
            return None;
        }
    }
    Some(&text[name.len()..])
}

// the variable and the size of a request, up to the end of the line
#[inline(always)]
fn request(text: &[u8]) -> Option<(u16, u32, &[u8])>
    ensures spelled { IfSome result (λ x. text.now ≡ line_of (decimal x.0 ∷ decimal x.1 ∷ []) ++ 10 ∷ x.2.now) }
    ensures range { IfSome result (λ x. IsRequest x.0 x.1) }
{
    let (v, text) = variable(b' ', text)?;
    let (n, after) = number(0, Event::LARGEST_REQUEST, b'\n', text)?;
    Some((v, n, after))
}

// the variable, the offset and the bytes of an access, up to the byte `end`
#[inline(always)]
fn access(end: u8, text: &[u8]) -> Option<(u16, i32, u8, &[u8])>
    ensures spelled { IfSome result
        (λ x. text.now ≡ line_of (decimal x.0 ∷ signed_decimal x.1 ∷ decimal x.2 ∷ []) ++ end ∷ x.3.now) }
    ensures range { IfSome result (λ x. IsAccessOf x.0 x.1 x.2) }
{
    let (v, text) = variable(b' ', text)?;
    let (off, text) = offset(text)?;
    let (len, after) = short_number(1, Event::LONGEST_ACCESS, end, text)?;
    Some((v, off, len as u8, after))
}

// the two variables of a move, its granules and its tags, up to the end of the line
#[inline(always)]
fn move_pointer(text: &[u8]) -> Option<(u16, u16, u8, u8, &[u8])>
    ensures spelled { IfSome result
        (λ x. text.now ≡ line_of (decimal x.0 ∷ decimal x.1 ∷ decimal x.2 ∷ decimal x.3 ∷ []) ++ 10 ∷ x.4.now) }
    ensures range { IfSome result (λ x. IsMove x.0 x.1 x.2 x.3) }
{
    let (v, text) = variable(b' ', text)?;
    let (w, text) = variable(b' ', text)?;
    let (u6, text) = short_number(0, Event::FARTHEST_MOVE, b' ', text)?;
    let (u4, after) = short_number(0, Event::LARGEST_TAG_STEP, b'\n', text)?;
    Some((v, w, u6 as u8, u4 as u8, after))
}

// A variable. Most have three digits. With more returns than three the compiler would find out the kind of each event once more.
#[inline(always)]
fn variable(end: u8, text: &[u8]) -> Option<(u16, &[u8])>
    ensures spelled { IfSome result (λ x. text.now ≡ decimal x.0 ++ end ∷ x.1.now) }
    ensures range { IfSome result (λ x. IsVariable x.0) }
{
    if let Some((v, after)) = three_digits(end, text) {
        return Some((v as u16, after));
    }
    let (v, count) = one_or_four_digits(end, text);
    if count != 0 {
        return Some((v as u16, &text[count + 1..]));
    }
    let (v, after) = number(0, Event::LAST_VARIABLE, end, text)?;
    Some((v as u16, after))
}

// A variable of one digit, or of four: those begin with 10. Returns the variable and its digits; no digits if there is no such variable.
#[inline(always)]
fn one_or_four_digits(end: u8, text: &[u8]) -> (u32, usize)
    ensures spelled { result.1 ≢ 0 → take result.1 text.now ≡ decimal result.0 }
    ensures within { result.1 ≢ 0 → result.1 < length text.now }
    ensures end { result.1 ≢ 0 → slice_index text.now result.1 ≡ end }
    ensures range { result.0 ≤ Event.LAST_VARIABLE }
{
    if text.len() < 5 {
        return (0, 0);
    }
    if text[1] == end {
        let value = digit_of(text[0]);
        if value > 9 {
            return (0, 0);
        }
        return (value, 1);
    }
    if text[4] != end || text[0] != b'1' || text[1] != b'0' {
        return (0, 0);
    }
    let tens = digit_of(text[2]);
    let ones = digit_of(text[3]);
    if tens > 2 || ones > 9 {
        return (0, 0);
    }
    let v = 1000 + tens * 10 + ones;
    if v > Event::LAST_VARIABLE {
        return (0, 0);
    }
    (v, 4)
}

// an offset, up to a space
#[inline(always)]
fn offset(text: &[u8]) -> Option<(i32, &[u8])>
    ensures spelled { IfSome result (λ x. text.now ≡ signed_decimal x.0 ++ 32 ∷ x.1.now) }
    ensures range { IfSome result (λ x. nat_abs x.0 ≤ Event.FARTHEST_ACCESS) }
{
    if let Some((n, after)) = number(0, Event::FARTHEST_ACCESS, b' ', text) {
        return Some((n as i32, after));
    }
    let (n, after) = number(1, Event::FARTHEST_ACCESS, b' ', after_name(b"-", text)?)?;
    Some((-1 - (n - 1) as i32, after))
}

// the number from `low` to `high` in front of a text, up to the byte `end`
#[inline(always)]
fn number(low: u32, high: u32, end: u8, text: &[u8]) -> Option<(u32, &[u8])>
    ensures spelled { IfSome result (λ x. text.now ≡ decimal x.0 ++ end ∷ x.1.now) }
    ensures low { IfSome result (λ x. low ≤ x.0) }
    ensures high { IfSome result (λ x. x.0 ≤ high) }
{
    let (n, after) = digits(end, text)?;
    if low <= n && n <= high {
        Some((n, after))
    } else {
        None
    }
}

// a number from `low` to `high` that has two digits or one, as each up to 99 has
#[inline(always)]
fn short_number(low: u32, high: u32, end: u8, text: &[u8]) -> Option<(u32, &[u8])>
    ensures spelled { IfSome result (λ x. text.now ≡ decimal x.0 ++ end ∷ x.1.now) }
    ensures low { IfSome result (λ x. low ≤ x.0) }
    ensures high { IfSome result (λ x. x.0 ≤ high) }
{
    let (n, after) = short_digits(end, text)?;
    if low <= n && n <= high {
        Some((n, after))
    } else {
        None
    }
}

#[inline(always)]
fn short_digits(end: u8, text: &[u8]) -> Option<(u32, &[u8])>
    ensures { IfSome result (λ x. text.now ≡ decimal x.0 ++ end ∷ x.1.now) }
{
    if text.len() > 2 && text[2] == end {
        return two_digits(end, text);
    }
    one_digit(end, text)
}

// The number of at most `DIGITS` digits in front of a text, up to the byte `end`. Most numbers of a trace have at most three digits: there
// the place of `end` says how many, and no digit costs a search for it.
#[inline(always)]
fn digits(end: u8, text: &[u8]) -> Option<(u32, &[u8])>
    ensures { IfSome result (λ x. text.now ≡ decimal x.0 ++ end ∷ x.1.now) }
{
    if text.len() > 3 && text[3] == end {
        if let Some(found) = three_digits(end, text) {
            return Some(found);
        }
    }
    if text.len() > 2 && text[2] == end {
        return two_digits(end, text);
    }
    if text.len() > 1 && text[1] == end {
        return one_digit(end, text);
    }
    let (value, count) = more_digits(end, text);
    if count == 0 {
        return None;
    }
    Some((value, &text[count + 1..]))
}

// a number of three digits
#[inline(always)]
fn three_digits(end: u8, text: &[u8]) -> Option<(u32, &[u8])>
    ensures spelled { IfSome result (λ x. text.now ≡ decimal x.0 ++ end ∷ x.1.now) }
    ensures few { IfSome result (λ x. x.0 ≤ 999) }
{
    let (word, after) = first_word(text)?;
    let value = three_in(word, end)?;
    Some((value, after))
}

// The number of three digits that a word spells, the first not 0, where its last byte is `end`. One subtraction takes 100 and `end` off: it
// leaves digits, and nothing in the last byte, or a highest bit is set somewhere, there or with `ABOVE` added.
#[inline(always)]
fn three_in(word: u32, end: u8) -> Option<u32>
    ensures spelled { IfSome result (λ value. to_le_bytes w32 word ≡ decimal value ++ end ∷ []) }
    ensures few { IfSome result (λ value. value ≤ 999) }
    ensures many { IfSome result (λ value. 100 ≤ value) }
{
    let digits = word.wrapping_sub(LEAST_DIGITS + u32::from(end) * 0x100_0000);
    if (digits | digits.wrapping_add(ABOVE)) & HIGH_BITS != 0 {
        return None;
    }
    Some((digits % 256 + 1) * 100 + digits / 256 % 256 * 10 + digits / 65_536)
}

// a number of two digits
#[inline(always)]
fn two_digits(end: u8, text: &[u8]) -> Option<(u32, &[u8])>
    ensures { IfSome result (λ x. text.now ≡ decimal x.0 ++ end ∷ x.1.now) }
{
    if text.len() < 3 || text[2] != end {
        return None;
    }
    let tens = digit_of(text[0]);
    if tens == 0 || tens > 9 {
        return None;
    }
    let ones = digit_of(text[1]);
    if ones > 9 {
        return None;
    }
    Some((tens * 10 + ones, &text[3..]))
}

// a number of one digit
#[inline(always)]
fn one_digit(end: u8, text: &[u8]) -> Option<(u32, &[u8])>
    ensures { IfSome result (λ x. text.now ≡ decimal x.0 ++ end ∷ x.1.now) }
{
    if text.len() < 2 || text[1] != end {
        return None;
    }
    let value = digit_of(text[0]);
    if value > 9 {
        return None;
    }
    Some((value, &text[2..]))
}

// The number of four digits that a word spells, the first not 0. Two digits are joined in each half by one multiplication.
#[inline(always)]
fn four_in(word: u32) -> Option<u32>
    ensures spelled { IfSome result (λ value. to_le_bytes w32 word ≡ decimal value) }
    ensures few { IfSome result (λ value. value ≤ 9999) }
    ensures many { IfSome result (λ value. 1000 ≤ value) }
{
    let digits = word.wrapping_sub(LEAST_FOUR);
    if (digits | digits.wrapping_add(ABOVE_FOUR)) & HIGH_BITS_OF_FOUR != 0 {
        return None;
    }
    let pairs = digits.wrapping_mul(1 + 10 * 256);
    Some(1000 + pairs / 256 % 256 * 100 + pairs / 0x100_0000)
}

// A number of four to `DIGITS` digits: the first four at once, the others one by one. It stays a function: unrolled at each number, it would
// keep the compiler from a path of its own for each kind of event.
// Returns the number and its digits; no digits if there is no such number, so that the answer is in registers.
#[inline(never)]
fn more_digits(end: u8, text: &[u8]) -> (u32, usize)
    ensures spelled { result.1 ≢ 0 → take result.1 text.now ≡ decimal result.0 }
    ensures within { result.1 ≢ 0 → result.1 < length text.now }
    ensures end { result.1 ≢ 0 → slice_index text.now result.1 ≡ end }
{
    if text.len() <= DIGITS {
        return (0, 0);
    }
    let Some((word, _)) = first_word(text) else {
        return (0, 0);
    };
    let Some(first) = four_in(word) else {
        return (0, 0);
    };
    if text[WORD] == end {
        return (first, WORD);
    }
    let mut value = first;
    for place in WORD..DIGITS {
        let digit = digit_of(text[place]);
        if digit > 9 {
            return (0, 0);
        }
        value = value * 10 + digit;
        if text[place + 1] == end {
            return (value, place + 1);
        }
    }
    (0, 0)
}

// The value of a digit, and more than 9 for any other byte. One subtraction serves for the test and for the value.
#[inline(always)]
fn digit_of(byte: u8) -> u32
    ensures { result ≤ 9 → byte ≡ 48 + result }
{
    u32::from(byte).wrapping_sub(u32::from(b'0'))
}

// two hexadecimal digits and the end of the line
#[inline(always)]
fn byte(text: &[u8]) -> Option<(u8, &[u8])>
    ensures spelled { IfSome result (λ x. text.now ≡ hex x.0 ++ 10 ∷ x.1.now) }
    ensures range { IfSome result (λ x. x.0 < 2 ^ 8) }
{
    if text.len() < 3 || text[2] != b'\n' {
        return None;
    }
    let high = hex_value(text[0]);
    let low = hex_value(text[1]);
    if high > 15 || low > 15 {
        return None;
    }
    Some((16 * high + low, &text[3..]))
}
