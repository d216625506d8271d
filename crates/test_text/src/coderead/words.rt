// Frames that no method has, and the empty word.
use dv_coderead::words::{label, literal, register};
use dv_coderead::{Frame, Refusal};
use dv_defs::LineKind;

const OPERANDS: LineKind = LineKind::Operands;

const REGISTER_RANGE: LineKind = LineKind::RegisterRange;

// As many words of arguments as 32 bits hold.
const MOST: Frame = Frame {
    registers: 5,
    arguments: 4294967295,
};

// As many as 64 bits hold.
const HUGE: Frame = Frame {
    registers: 5,
    arguments: 18446744073709551615,
};

// A frame, a word, and the number of the register that it names.
static REGISTERS: [(Frame, &str, Result<u16, LineKind>); 11] = [
    (HUGE, "p18446744073709551610", Ok(0)),
    (HUGE, "p18446744073709617145", Ok(65535)),
    (HUGE, "p18446744073709551609", Err(REGISTER_RANGE)),
    (HUGE, "p18446744073709617146", Err(REGISTER_RANGE)),
    (HUGE, "p184467440737095516100", Err(REGISTER_RANGE)),
    (MOST, "p4294967289", Err(REGISTER_RANGE)),
    (MOST, "p4294967290", Ok(0)),
    (MOST, "p4295032825", Ok(65535)),
    (MOST, "p4295032826", Err(REGISTER_RANGE)),
    (MOST, "p140737488355328", Err(REGISTER_RANGE)),
    (MOST, "", Err(OPERANDS)),
];

#[test]
fn registers_are_read(rt: HostRuntime) {
    for (frame, text, expected) in &REGISTERS {
        assert_eq!(rt; register(*frame, text.as_bytes()), *expected, "{text}");
    }
}

#[test]
fn empty_words_are_refused(rt: HostRuntime) {
    assert_eq!(rt; literal(b"", 32), Err(OPERANDS));
    assert_eq!(rt;
        label(rt.alloc(), b"").err(),
        Some(Refusal::Fault(OPERANDS))
    );
}
