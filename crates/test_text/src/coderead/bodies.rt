// Lines of a method that the reader of classes never hands on.
use dv_coderead::read_body;
use dv_defs::{LineError, LineKind};
use dv_draft::Draft;
use dv_lex::good_lines;
use dv_names::parse_proto;
use std::alloc::{AllocError, Global};
use std::process::Abort;
use std::test::Fail;

// The lines of a method, its prototype, and whether it is static; the first bad line, and its kind.
static REFUSED: [(&str, &str, bool, u32, LineKind); 3] = [
    ("", "()V", true, 1, LineKind::Missing),
    ("# nothing\n\n", "()V", true, 3, LineKind::Missing),
    (
        ".registers 1\n.end method",
        "()V",
        true,
        2,
        LineKind::Missing,
    ),
];

fn read(
    rt: &impl Abort,
    alloc: Global,
    text: &str,
    proto: &str,
    is_static: bool,
) -> Result<Result<Draft, LineError>, AllocError> {
    let text = text.as_bytes();
    assert!(rt; text.len() < 1000);
    let good = good_lines(alloc, text)?;
    assert!(rt; good.stop.is_none());
    let proto = parse_proto(alloc, proto.as_bytes());
    let proto = proto.ok().expect(rt, "a prototype");
    Ok(read_body(alloc, text, good.lines.items(), &proto, is_static))
}

#[test]
fn the_first_bad_line_is_told(rt: HostRuntime) -> Result<(), Fail> {
    for (text, proto, is_static, line, kind) in &REFUSED {
        let draft = read(&rt, rt.alloc(), *text, *proto, *is_static)?;
        let told = LineError::At {
            line: *line,
            kind: *kind,
        };
        assert_eq!(rt; draft.err(), Some(told));
    }
    Ok(())
}
