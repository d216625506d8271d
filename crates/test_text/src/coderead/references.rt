// Texts that no word of a line hands on.
use dv_coderead::Refusal;
use dv_coderead::references::{field, method, proto};
use dv_defs::LineKind;

#[test]
fn empty_texts_are_refused(rt: HostRuntime) {
    let descriptor = Some(Refusal::Fault(LineKind::BadDescriptor));
    assert_eq!(rt; proto(rt.alloc(), b"").err(), descriptor);
    assert_eq!(rt; proto(rt.alloc(), b"V").err(), descriptor);
    let operands = Some(Refusal::Fault(LineKind::Operands));
    assert_eq!(rt; field(rt.alloc(), b"").err(), operands);
    assert_eq!(rt; method(rt.alloc(), b"").err(), operands);
}
