//! A line of two numbers, in one pass over its bytes.
ghost use Rattle.std.specs.Prelude.{◌≡◌, ◌≢◌, ◌∷◌, Some, IfNone, IfSome, drop, option_and_then, slice_get};
ghost use Rattle.std.specs.Option.{option_map};
ghost use Rattle.line_text.specs.Lines.{lines, words};
ghost use Rattle.line_text.specs.Pairs.{short_pair_of};

use crate::leading_number::leading_number;

/// The two numbers of the first line of a text, and the text after that line; `None` if the line is no such pair.
#[inline(always)]
pub(crate) fn leading_pair(text: &[u8]) -> Option<((u64, u64), &[u8])>
    ensures numbers { option_map (λ found. found.0) result
        ≡ option_and_then (λ line. short_pair_of (words line)) (slice_get (lines text.now) 0) }
    ensures after { IfSome result (λ found. lines found.1.now ≡ drop 1 (lines text.now)) }
{
    let (first, after_first) = leading_number(text)?;
    let (second, after_second) = leading_number(after_byte(b' ', after_first)?)?;
    if after_second.is_empty() {
        return Some(((first, second), after_second));
    }
    let rest = after_byte(b'\n', after_second)?;
    Some(((first, second), rest))
}

/// The text after its first byte, if that is this byte.
#[inline(always)]
pub(crate) fn after_byte(byte: u8, text: &[u8]) -> Option<&[u8]>
    ensures first { IfSome result (λ rest. text.now ≡ byte ∷ rest.now) }
    ensures other { IfNone result (slice_get text.now 0 ≢ Some byte) }
{
    match text {
        [first, rest @ ..] if *first == byte => Some(rest),
        _ => None,
    }
}
