//! Numbers with a sign.
ghost use Rattle.std.specs.Prelude.{◌≡◌, ℕ, pos, Option, option_and_then};
ghost use Rattle.std.specs.Option.{option_map};
ghost use Rattle.line_text.specs.Numbers.{classified};
ghost use Rattle.line_text.specs.Signed.{signed_of, signed_classified, negated};

use crate::number::{Number, number_in};

/// What a word spells as a number with a sign.
#[derive(Debug, Clone, Copy, PartialEq, Eq)]
pub enum SignedNumber {
    /// No number, or not the one spelling of its number.
    NoNumber,
    /// A number below -2^63 or above 2^63 - 1.
    TooLarge,
    /// This number.
    Value(i64),
}

/// The number with its sign that a word of any length spells: a number as `number_in` reads it, or `-` and such a number other than 0.
pub fn signed_number_in(word: &[u8]) -> SignedNumber
    ensures { result ≡ signed_classified (signed_of word.now) }
{
    match word.strip_prefix(b"-") {
        Some(digits) => negative(number_in(digits)),
        None => not_negative(number_in(word)),
    }
}

// The number itself.
fn not_negative(number: Number) -> SignedNumber
    ensures { (spelled : Option ℕ) → number ≡ classified spelled
        → result ≡ signed_classified (option_map pos spelled) }
{
    match number {
        Number::NoNumber => SignedNumber::NoNumber,
        Number::TooLarge => SignedNumber::TooLarge,
        Number::Value(n) => match i64::try_from(n) {
            Ok(value) => SignedNumber::Value(value),
            Err(_) => SignedNumber::TooLarge,
        },
    }
}

// The number after a `-`.
fn negative(number: Number) -> SignedNumber
    ensures { (spelled : Option ℕ) → number ≡ classified spelled
        → result ≡ signed_classified (option_and_then negated spelled) }
{
    match number {
        Number::NoNumber | Number::Value(0) => SignedNumber::NoNumber,
        Number::TooLarge => SignedNumber::TooLarge,
        // computed from the number below it: 2^63 is no i64, and -2^63 is one
        Number::Value(n) => match i64::try_from(n - 1) {
            Ok(below) => SignedNumber::Value(-1 - below),
            Err(_) => SignedNumber::TooLarge,
        },
    }
}
