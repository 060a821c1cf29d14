//! Lines, words and numbers.
use crate::tests::support::same;
use line_text::{
    Number, SignedNumber, hex_byte_in, lines_in, number_in, signed_number_in, words_in,
};
use std::process::Abort;

// texts, and their lines
const TEXTS: &[(&str, &[&str])] = &[
    ("", &[]),
    ("\n\n", &["", ""]),
    ("classes 4\n16 3\n", &["classes 4", "16 3"]),
    ("classes 4\n16 3", &["classes 4", "16 3"]),
    ("a\n\nb\n", &["a", "", "b"]),
    ("a\r\nb\r", &["a\r", "b\r"]),
    (" \n\t", &[" ", "\t"]),
];

#[test]
fn lines_of_texts(rt: HostRuntime) {
    for (text, wanted) in TEXTS {
        has_lines(&rt, text, wanted);
    }
}

fn has_lines(rt: &impl Abort, text: &str, wanted: &[&str]) {
    let mut lines = lines_in(text.as_bytes());
    for line in wanted {
        same(rt, &lines.next(), &Some(line.as_bytes()), &text);
    }
    same(rt, &lines.next(), &None, &text);
}

// lines, and their words
const LINES: &[(&str, &[&str])] = &[
    ("", &[""]),
    ("classes", &["classes"]),
    ("malloc 1 100", &["malloc", "1", "100"]),
    ("16  3", &["16", "", "3"]),
    (" 16 3", &["", "16", "3"]),
    ("16 3 ", &["16", "3", ""]),
    ("16\t3", &["16\t3"]),
    (
        "a_word_of_more_than_thirty_two_bytes 1",
        &["a_word_of_more_than_thirty_two_bytes", "1"],
    ),
];

#[test]
fn words_of_lines(rt: HostRuntime) {
    for (line, wanted) in LINES {
        has_words(&rt, line, wanted);
    }
}

fn has_words(rt: &impl Abort, line: &str, wanted: &[&str]) {
    let mut words = words_in(line.as_bytes());
    for word in wanted {
        same(rt, &words.next(), &Some(word.as_bytes()), &line);
    }
    same(rt, &words.next(), &None, &line);
}

// what is left of a text before each of its lines
const RESTS: &[&[u8]] = &[b"classes 4\n16 3\n40 1", b"16 3\n40 1", b"40 1"];

#[test]
fn rest_of_a_text(rt: HostRuntime) {
    let mut lines = lines_in(b"classes 4\n16 3\n40 1");
    for rest in RESTS {
        same(&rt, &lines.rest(), rest, &"a rest");
        assert!(rt; lines.next().is_some());
    }
    same(&rt, &lines.rest(), &b"".as_slice(), &"after all lines");
    assert!(rt; lines.next().is_none());
}

// words, and the numbers that they are
const NUMBERS: &[(&str, Number)] = &[
    ("0", Number::Value(0)),
    ("7", Number::Value(7)),
    ("16360", Number::Value(16360)),
    ("", Number::NoNumber),
    ("00", Number::NoNumber),
    ("01", Number::NoNumber),
    ("-1", Number::NoNumber),
    ("+1", Number::NoNumber),
    ("1a", Number::NoNumber),
    (
        "9999999999999999999",
        Number::Value(9_999_999_999_999_999_999),
    ),
    (
        "18446744073709551615",
        Number::Value(18_446_744_073_709_551_615),
    ),
    ("18446744073709551616", Number::TooLarge),
    ("99999999999999999999", Number::TooLarge),
    ("99999999999999999999a", Number::NoNumber),
    // 200 ones, and 200 zeros
    (
        "1111111111111111111111111111111111111111111111111111111111111111111111111111111111111111111111111111\
         1111111111111111111111111111111111111111111111111111111111111111111111111111111111111111111111111111",
        Number::TooLarge,
    ),
    (
        "0000000000000000000000000000000000000000000000000000000000000000000000000000000000000000000000000000\
         0000000000000000000000000000000000000000000000000000000000000000000000000000000000000000000000000000",
        Number::NoNumber,
    ),
];

#[test]
fn numbers(rt: HostRuntime) {
    for (word, number) in NUMBERS {
        same(&rt, &number_in(word.as_bytes()), number, word);
    }
}

// texts, the two numbers of their first lines, and the line that is next then
const PAIRS: &[(&str, Option<(u64, u64)>, Option<&[u8]>)] = &[
    ("16 3\n40 1\n", Some((16, 3)), Some(b"40 1")),
    ("16 3", Some((16, 3)), None),
    ("0 0\n", Some((0, 0)), None),
    ("0 0\n\n", Some((0, 0)), Some(b"")),
    (
        "9999999999999999999 9999999999999999999\nlarge 7",
        Some((9_999_999_999_999_999_999, 9_999_999_999_999_999_999)),
        Some(b"large 7"),
    ),
    ("", None, None),
    ("\n16 3", None, Some(b"")),
    ("16", None, Some(b"16")),
    ("16\n3\n", None, Some(b"16")),
    ("16 \n3\n", None, Some(b"16 ")),
    ("16 3 \n", None, Some(b"16 3 ")),
    ("16 3 4\n", None, Some(b"16 3 4")),
    ("16  3\n", None, Some(b"16  3")),
    ("016 3\n", None, Some(b"016 3")),
    ("16 03\n", None, Some(b"16 03")),
    ("large 3\n", None, Some(b"large 3")),
    (
        "16 10000000000000000000\n",
        None,
        Some(b"16 10000000000000000000"),
    ),
];

#[test]
fn next_lines_of_numbers(rt: HostRuntime) {
    for (text, numbers, after) in PAIRS {
        let mut lines = lines_in(text.as_bytes());
        same(&rt, &lines.next_numbers(), numbers, text);
        same(&rt, &lines.next(), after, text);
    }
}

// words, and the signed numbers that they are
const SIGNED: &[(&str, SignedNumber)] = &[
    ("0", SignedNumber::Value(0)),
    ("-1", SignedNumber::Value(-1)),
    ("1048576", SignedNumber::Value(1_048_576)),
    ("-1048577", SignedNumber::Value(-1_048_577)),
    ("", SignedNumber::NoNumber),
    ("-", SignedNumber::NoNumber),
    ("-0", SignedNumber::NoNumber),
    ("-01", SignedNumber::NoNumber),
    ("--1", SignedNumber::NoNumber),
    ("+1", SignedNumber::NoNumber),
    ("-9223372036854775808", SignedNumber::Value(i64::MIN)),
    ("-9223372036854775809", SignedNumber::TooLarge),
    ("9223372036854775808", SignedNumber::TooLarge),
    ("9223372036854775807", SignedNumber::Value(i64::MAX)),
];

#[test]
fn signed_numbers(rt: HostRuntime) {
    for (word, number) in SIGNED {
        same(&rt, &signed_number_in(word.as_bytes()), number, word);
    }
}

// words, and the bytes that they are
const HEX_BYTES: &[(&str, Option<u8>)] = &[
    ("00", Some(0)),
    ("0a", Some(10)),
    ("a0", Some(160)),
    ("ff", Some(255)),
    ("", None),
    ("a", None),
    ("abc", None),
    ("0A", None),
    ("0g", None),
];

#[test]
fn hex_bytes(rt: HostRuntime) {
    for (word, byte) in HEX_BYTES {
        same(&rt, &hex_byte_in(word.as_bytes()), byte, word);
    }
}
