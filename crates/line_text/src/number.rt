//! Numbers.
ghost use Rattle.std.specs.Prelude.{◌≡◌, ◌<◌, ◌≤◌, ◌^◌, IsTrue, IfSome, length, min};
ghost use Rattle.std.specs.Char.{is_ascii_digit};
ghost use Rattle.std.specs.List.{list_all};
ghost use Rattle.std.specs.Option.{SomeIff, option_map};
ghost use Rattle.std.specs.Str.Parse.{digits_value};
ghost use Rattle.line_text.specs.Numbers.{number_of, classified};

use crate::leading_number::leading_number;

/// What a word spells as a number.
#[derive(Debug, Clone, Copy, PartialEq, Eq)]
pub enum Number {
    /// No number, or not the one spelling of its number.
    NoNumber,
    /// A number above 2^64 - 1.
    TooLarge,
    /// This number.
    Value(u64),
}

/// Every number of this many digits is below 2^64.
pub(crate) const SHORT_DIGITS: usize = 19;

/// The number that a word of any length spells. Each number has one spelling: its decimal digits, without a leading 0 except in `0` itself.
#[tactic(auto, using(crate::proofs::LeadingDigits::whole_number))]
pub fn number_in(word: &[u8]) -> Number
    ensures { result ≡ classified (number_of word.now) }
{
    match leading_number(word) {
        Some((value, [])) => Number::Value(value),
        _ => any_number_in(word),
    }
}

// The number that a word of any length spells, even if it has more digits than `leading_number` reads.
#[tactic(auto, unfolding(crate::specs::Numbers::number_of))]
fn any_number_in(word: &[u8]) -> Number
    ensures { result ≡ classified (number_of word.now) }
{
    if word.is_empty() || (word[0] == b'0' && 1 < word.len()) {
        return Number::NoNumber;
    }
    if !all_digits(word) {
        return Number::NoNumber;
    }
    match value_of(word) {
        Some(value) => Number::Value(value),
        None => Number::TooLarge,
    }
}

/// The number that a word of any length spells, or `most` if the number is larger. `None` if the word spells no number.
/// It serves a reader for which every number from `most` on is out of range.
pub fn capped_number_in(word: &[u8], most: u32) -> Option<u32>
    ensures number { result ≡ option_map (λ n. min n most) (number_of word.now) }
    ensures capped { IfSome result (λ n. n ≤ most) }
{
    match number_in(word) {
        Number::NoNumber => None,
        Number::TooLarge => Some(most),
        Number::Value(n) => Some(n.min(u64::from(most)) as u32),
    }
}

fn all_digits(word: &[u8]) -> bool
    ensures { result ≡ list_all is_ascii_digit word.now }
{
    word.iter().all(|b| b.is_ascii_digit())
}

// The value of digits, if 64 bits hold it.
fn value_of(digits: &[u8]) -> Option<u64>
    requires { IsTrue (list_all is_ascii_digit digits.now) }
    ensures { SomeIff result (digits_value 10 digits.now < 2 ^ 64) (digits_value 10 digits.now) }
{
    let mut value: u64 = 0;
    for digit in digits {
        value = value
            .checked_mul(10)?
            .checked_add(u64::from(*digit - b'0'))?;
    }
    Some(value)
}
