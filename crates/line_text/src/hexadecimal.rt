//! Bytes as two hexadecimal digits.
ghost use Rattle.std.specs.Prelude.{◌≡◌, Some, None, if◌then◌else◌};
ghost use Rattle.std.specs.Char.{digit_value};
ghost use Rattle.line_text.specs.Hexadecimal.{hex_of, is_hex_digit};

/// The byte that a word of exactly two digits from `0` to `9` and `a` to `f` spells, the high digit first. `None` for any other word.
#[tactic(auto, unfolding(crate::specs::Hexadecimal::hex_of))]
pub fn hex_byte_in(word: &[u8]) -> Option<u8>
    ensures { result ≡ hex_of word.now }
{
    let [high, low] = word else {
        return None;
    };
    Some(16 * hex_digit_in(*high)? + hex_digit_in(*low)?)
}

fn hex_digit_in(character: u8) -> Option<u8>
    ensures { result ≡ (if is_hex_digit character then Some (digit_value character) else None) }
{
    match character {
        b'0'..=b'9' => Some(character - b'0'),
        b'a'..=b'f' => Some(character - b'a' + 10),
        _ => None,
    }
}
