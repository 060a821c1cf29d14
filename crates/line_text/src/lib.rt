//! Lines of a text, words of a line, and the numbers that words spell: what all text formats of the tool share.
#![tactic(auto)]

mod digit_words;
mod hexadecimal;
pub mod laws;
mod leading_number;
mod line_reader;
mod lines;
mod near_digits;
mod number;
mod pair;
mod row;
mod search;
mod signed_number;
mod words;

pub use hexadecimal::hex_byte_in;
pub use line_reader::{LineReader, Stop, read_lines};
pub use lines::{Lines, first_line, lines_in};
pub use number::{Number, capped_number_in, number_in};
pub use row::short_line;
pub use signed_number::{SignedNumber, signed_number_in};
pub use words::{Words, words_in};
