// Schedules written and read, row by row.
use dv_defs::{Entry, Text};
use dv_log::{LogError, print_log, read_log};
use std::alloc::{AllocError, Global};
use std::process::Abort;

type Three = (u32, u32, u32);

// Entries, and their text.
static LOGS: [(&[Three], &str); 3] = [
    (&[], ""),
    (&[(0, 0, 1)], "0 0 1\n"),
    (&[(7, 63, 256), (0, 10, 20)], "7 63 256\n0 10 20\n"),
];

// Lines, and the entries that they are.
static GOOD: [(&[&[u8]], &[Three]); 10] = [
    (&[], &[]),
    (&[b"", b" \t", b"# 0 0 1"], &[]),
    (&[b"0 0 1"], &[(0, 0, 1)]),
    (&[b"7 63 256"], &[(7, 63, 256)]),
    (
        &[b"0 0 1", b"", b"1 2 3", b"# end"],
        &[(0, 0, 1), (1, 2, 3)],
    ),
    (&[b" 0\t0  1 # first"], &[(0, 0, 1)]),
    (&[b"0x7 0x3f 0x100"], &[(7, 63, 256)]),
    (&[b"0x7 0x3F 0x0ff"], &[(7, 63, 255)]),
    (&[b"1L 2s 3t"], &[(1, 2, 3)]),
    (&[b"007 -0 0001"], &[(7, 0, 1)]),
];

// Lines, the number of the first, and the number of the first bad one.
static BAD: [(&[&[u8]], u32, u32); 25] = [
    (&[b"0 0 257"], 9, 9),
    (&[b"0 0 0"], 1, 1),
    (&[b"8 0 1"], 1, 1),
    (&[b"0 64 1"], 1, 1),
    (&[b"-1 0 1"], 1, 1),
    (&[b"0 0 -1"], 1, 1),
    (&[b"0 0"], 1, 1),
    (&[b"0"], 1, 1),
    (&[b"0 0 1 2"], 1, 1),
    (&[b"a 0 1"], 1, 1),
    (&[b"0 0 1x"], 1, 1),
    (&[b"0,0,1"], 1, 1),
    (&[b"0 0 {"], 1, 1),
    (&[b"0 0 '1'"], 1, 1),
    (&[b"0 0 \"1\""], 1, 1),
    (&[b"0 0 \"1"], 1, 1),
    (&[b"0 0 1\r"], 1, 1),
    (&[b"0 0 1\n0 0 1"], 1, 1),
    (&[b"0 0 1 # \xff"], 1, 1),
    (&[b"0 0 99999999999999999999999"], 1, 1),
    (&[b"0xffffffffffffffff 0 1"], 1, 1),
    (&[b"0 0 0x10001"], 1, 1),
    (
        &[b"0 0 1", b"", b"0 0 300", b"x"],
        4_294_967_290,
        4_294_967_292,
    ),
    (&[b"# x", b"0 0 1", b".end schedule"], 7, 9),
    (&[b"0 0 1", b"0 0 \"\\q\""], 1, 2),
];

fn add_entries(log: &mut Vec<Entry>, threes: &[Three]) -> Result<(), AllocError> {
    for (worker, thread, steps) in threes {
        log.push(Entry {
            worker: *worker,
            thread: *thread,
            steps: *steps,
        })?;
    }
    Ok(())
}

fn entries(rt: &impl Abort, alloc: Global, threes: &[Three]) -> Vec<Entry> {
    let mut log = Vec::new(alloc);
    assert!(rt; add_entries(&mut log, threes).is_ok());
    log
}

fn add_text(alloc: Global, texts: &mut Vec<Text>, line: &[u8]) -> Result<(), AllocError> {
    let text = Text::of(Vec::from_slice(alloc, line)?)?;
    texts.push(text)?;
    Ok(())
}

fn add_texts(alloc: Global, texts: &mut Vec<Text>, lines: &[&[u8]]) -> Result<(), AllocError> {
    for line in lines {
        add_text(alloc, texts, *line)?;
    }
    Ok(())
}

fn texts_of(rt: &impl Abort, alloc: Global, lines: &[&[u8]]) -> Vec<Text> {
    let mut texts = Vec::new(alloc);
    assert!(rt; add_texts(alloc, &mut texts, lines).is_ok());
    texts
}

fn assert_written(rt: &impl Abort, alloc: Global, threes: &[Three], text: &str) {
    let log = entries(rt, alloc, threes);
    let written = print_log(alloc, log.as_slice()).ok().expect(rt, "memory");
    assert_eq!(rt; written.bytes(), text.as_bytes());
    drop(written);
    drop(log);
}

#[test]
fn schedules_are_written(rt: HostRuntime) {
    for (threes, text) in &LOGS {
        assert_written(&rt, rt.alloc(), *threes, *text);
    }
}

fn assert_schedule(rt: &impl Abort, alloc: Global, texts: &[Text], threes: &[Three]) {
    assert!(rt; texts.len() < 100);
    let found = read_log(alloc, texts, 5).ok().expect(rt, "a schedule");
    let expected = entries(rt, alloc, threes);
    assert_eq!(rt; found.as_slice(), expected.as_slice());
    drop(expected);
    drop(found);
}

fn assert_read(rt: &impl Abort, alloc: Global, lines: &[&[u8]], threes: &[Three]) {
    let texts = texts_of(rt, alloc, lines);
    assert_schedule(rt, alloc, &texts, threes);
    drop(texts);
}

#[test]
fn schedules_are_read(rt: HostRuntime) {
    for (lines, threes) in &GOOD {
        assert_read(&rt, rt.alloc(), *lines, *threes);
    }
}

fn assert_bad(rt: &impl Abort, alloc: Global, lines: &[&[u8]], first: u32, bad: u32) {
    let texts = texts_of(rt, alloc, lines);
    assert!(rt; texts.len() < 5 && first < 4_294_967_291);
    let found = read_log(alloc, texts.as_slice(), first).err();
    assert_eq!(rt; found, Some(LogError::BadLogLine(bad)));
    drop(texts);
}

#[test]
fn the_first_bad_line_is_told(rt: HostRuntime) {
    for (lines, first, bad) in &BAD {
        assert_bad(&rt, rt.alloc(), *lines, *first, *bad);
    }
}
