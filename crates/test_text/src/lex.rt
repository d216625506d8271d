// What no text of a program shows. All else of lines, tokens and literals is in `cases/reading`.
use dv_defs::{LineError, LineKind};
use dv_lex::{is_number, line_tokens, lines, number};
use std::process::Abort;
use std::test::Fail;

// A text that spells a number, a number of bits that no operand has, and the value in them if it fits.
static VALUES: [(&str, u32, Option<i64>); 9] = [
    ("0xffffffff", 31, None),
    ("0xffffffff", 33, Some(4294967295)),
    ("0x1ffffffff", 33, None),
    ("0xffffffffffffffff", 63, None),
    ("0", 1, Some(0)),
    ("-1", 1, Some(-1)),
    ("1", 1, None),
    ("0x1", 1, None),
    ("-2", 1, None),
];

// Texts that are no words.
static TEXTS: [&str; 3] = ["", " 5", "5 "];

fn has_value(rt: &impl Abort, text: &str, bits: u32, line: u32, value: Option<i64>) {
    let token = text.as_bytes();
    assert!(rt; is_number(token), "{text}");
    assert!(rt; 1 <= bits && bits <= 64, "{text}");
    let kind = LineKind::NumberRange;
    let expected = value.ok_or(LineError::At { line, kind });
    assert_eq!(rt; number(token, bits, line), expected, "{text} in {bits}");
}

#[test]
fn numbers_have_their_values(rt: HostRuntime) {
    for (text, bits, value) in &VALUES {
        has_value(&rt, text, *bits, 7, *value);
    }
}

#[test]
fn a_refusal_names_the_line(rt: HostRuntime) {
    has_value(&rt, "256", 8, 1, None);
    has_value(&rt, "256", 8, 4294967295, None);
}

#[test]
fn texts_that_are_no_words_are_no_numbers(rt: HostRuntime) {
    for text in &TEXTS {
        assert!(rt; !is_number(text.as_bytes()), "{text}");
    }
}

#[test]
fn a_line_feed_is_a_control_character(rt: HostRuntime) -> Result<(), Fail> {
    let tokens = line_tokens(rt.alloc(), b"a\nb".as_slice())?;
    assert_eq!(rt; tokens.err(), Some(LineKind::BadToken));
    Ok(())
}

// The program asks for the good lines instead.
#[test]
fn all_lines_are_good_or_the_first_bad_one_is_told(rt: HostRuntime) {
    let text = b"a b\r\nc\r\n".as_slice();
    assert!(rt; text.len() < 4_294_967_295);
    let found = lines(rt.alloc(), text).ok().expect(&rt, "good lines");
    assert_eq!(rt; found.len(), 2);
    let text = b"a\nb \x02\nc".as_slice();
    assert!(rt; text.len() < 4_294_967_295);
    let told = LineError::At {
        line: 2,
        kind: LineKind::BadToken,
    };
    assert_eq!(rt; lines(rt.alloc(), text).err(), Some(told));
}
