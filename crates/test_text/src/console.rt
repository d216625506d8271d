// Lines that no run of the program shows today. All others, and what words are read as, are told by the cases of `cases/top` and `cases/running`.
use dv_console::{Refusal, method_fault_line, refusal_line};
use dv_defs::{Fault, LineKind, LinkKind, MethodId, Rule, Text};
use std::alloc::{AllocError, Global};
use std::process::Abort;
use std::test::Fail;

// Numbers that no line of a text has.
static LINES: [(u32, LineKind, &str); 3] = [
    (0, LineKind::NotUtf8, "#refused line 0: not UTF-8\n"),
    (
        4_294_967_294,
        LineKind::Repeated,
        "#refused line 4294967294: repeated\n",
    ),
    (
        4_294_967_295,
        LineKind::BadLogLine,
        "#refused line 4294967295: bad schedule line\n",
    ),
];

#[test]
fn lines_are_told_by_any_number(rt: HostRuntime) -> Result<(), Fail> {
    for (number, kind, told) in LINES.iter() {
        assert_line(&rt, rt.alloc(), &Refusal::Line(*number, *kind), told)?;
    }
    Ok(())
}

fn assert_line(
    rt: &impl Abort,
    alloc: Global,
    refusal: &Refusal,
    told: &str,
) -> Result<(), AllocError> {
    let line = refusal_line(alloc, refusal)?;
    assert_eq!(rt; line.bytes(), told.as_bytes());
    drop(line);
    Ok(())
}

#[test]
fn names_may_be_empty(rt: HostRuntime) -> Result<(), Fail> {
    let class = text(rt.alloc(), "").ok().expect(&rt, "memory");
    let sought = text(rt.alloc(), "").ok().expect(&rt, "memory");
    let refusal = Refusal::Link(class, LinkKind::NoClass(sought));
    let told = assert_line(&rt, rt.alloc(), &refusal, "#refused class : no class \n");
    drop(refusal);
    told?;
    Ok(())
}

#[test]
fn names_of_methods_may_be_empty(rt: HostRuntime) -> Result<(), Fail> {
    let fault = Fault {
        method: MethodId(7),
        address: 0xffff_ffff,
        rule: Rule::V(14),
    };
    let line = method_fault_line(rt.alloc(), b"", &fault)?;
    assert_eq!(rt; line.bytes(), b"#fault  ffffffff V14\n".as_slice());
    drop(line);
    Ok(())
}

fn text(alloc: Global, s: &str) -> Result<Text, AllocError> {
    Text::of(Vec::from_slice(alloc, s.as_bytes())?)
}
