// Lines of a method that the reader of classes takes for no raw body.
use dv_coderead::read_raw;
use dv_defs::{Body, LineError, LineKind};
use dv_lex::good_lines;
use std::alloc::{AllocError, Global};
use std::process::Abort;
use std::test::Fail;

// The lines of a raw body; the first bad line, and its kind.
static REFUSED: [(&str, u32, LineKind); 4] = [
    ("", 1, LineKind::Missing),
    ("# nothing\n\n", 3, LineKind::Missing),
    (".registers 1", 2, LineKind::Missing),
    (".locals 1", 1, LineKind::Misplaced),
];

fn read(
    rt: &impl Abort,
    alloc: Global,
    text: &[u8],
) -> Result<Result<Body, LineError>, AllocError> {
    assert!(rt; text.len() < 100000);
    let good = good_lines(alloc, text)?;
    assert!(rt; good.stop.is_none());
    Ok(read_raw(alloc, text, good.lines.items()))
}

#[test]
fn the_first_bad_line_is_told(rt: HostRuntime) -> Result<(), Fail> {
    for (text, line, kind) in &REFUSED {
        let body = read(&rt, rt.alloc(), text.as_bytes())?;
        let told = LineError::At {
            line: *line,
            kind: *kind,
        };
        assert_eq!(rt; body.err(), Some(told));
    }
    Ok(())
}
