// Stacks with ample memory, by rows worked by hand.
use dv_defs::{ClassId, MethodId, Regs};
use dv_frames::{
    Full, Head, Level, Stack, Top, base_of, begin, given, go, handling, high_word, last, low_word,
    set_last, set_two, set_word, two_words, word, words_are_whole,
};
use dv_words::Kept;
use std::alloc::Global;
use std::process::Abort;
use std::test::Fail;

const CALLER: MethodId = MethodId(3);

const CALLEE: MethodId = MethodId(5);

const CLASS: ClassId = ClassId(6);

// The registers of the caller in the rows of arguments.
const WORDS: [u32; 8] = [10, 20, 30, 40, 50, 60, 70, 0xffff_ffff];

/// What is called.
#[derive(Clone, Copy)]
enum Call {
    Push(MethodId, u16, [u32; 2]),
    Record,
    Start,
    Set(u32, u32),
    Go(u32),
    Give(Kept),
    Handle(u32, u32),
    Pop,
}

fn make(stack: &mut Stack, call: Call) -> Result<(), Full> {
    match call {
        Call::Push(method, registers, args) => stack.push(method, registers, &args),
        Call::Record => stack.push_record(CLASS),
        _ => {
            change(stack, call);
            Ok(())
        }
    }
}

/// Makes a call that can't be without room.
fn change(stack: &mut Stack, call: Call) {
    match call {
        Call::Push(..) | Call::Record => {}
        Call::Start => stack.start_record(),
        Call::Set(reg, word) => stack.set_word(reg, word),
        Call::Go(at) => stack.go(at),
        Call::Give(kept) => stack.give(kept),
        Call::Handle(at, object) => stack.enter_handler(at, object),
        Call::Pop => {
            stack.pop();
        }
    }
}

/// A frame's method, address, result and caught object, or whether a record is running.
#[derive(Clone, Copy, PartialEq, Eq)]
enum Seen {
    Nothing,
    Code(MethodId, u32, Kept, Option<u32>),
    Record(bool),
}

fn on_top(stack: &Stack) -> Seen {
    match stack.top() {
        None => Seen::Nothing,
        Some(Top::Init { running, .. }) => Seen::Record(running),
        Some(Top::Code { .. }) => {
            let (method, at) = stack.place();
            match stack.head() {
                Some(head) => Seen::Code(method, at, head.result, head.caught),
                None => Seen::Nothing,
            }
        }
    }
}

fn is_seen(stack: &Stack, levels: u32, top: Seen, words: [u32; 3]) -> bool {
    stack.levels() == levels
        && on_top(stack) == top
        && stack.word(0) == words[0]
        && stack.word(1) == words[1]
        && stack.word(2) == words[2]
}

const NONE: Kept = Kept::None;

const NOTHING: Seen = Seen::Nothing;

const CALLING: Seen = Seen::Code(CALLER, 0, NONE, None);

const GONE: Seen = Seen::Code(CALLER, 4, NONE, None);

const CALLED: Seen = Seen::Code(CALLEE, 0, NONE, None);

const HANDLES: Seen = Seen::Code(CALLEE, 6, NONE, Some(77));

const GIVEN: Seen = Seen::Code(CALLEE, 6, Kept::One(5), Some(77));

const HANDLES_AGAIN: Seen = Seen::Code(CALLEE, 2, NONE, Some(78));

const GIVEN_LONG: Seen = Seen::Code(CALLEE, 2, Kept::Two(5, 6), Some(78));

const GONE_ON: Seen = Seen::Code(CALLEE, 3, NONE, None);

const WAITS: Seen = Seen::Record(false);

const RUNS: Seen = Seen::Record(true);

/// A call, whether there is room for it, and then the levels, what is on top, and its first three registers.
type Row = (Call, bool, u32, Seen, [u32; 3]);

const ROWS: &[Row] = &[
    (Call::Pop, true, 0, NOTHING, [0, 0, 0]),
    (Call::Go(1), true, 0, NOTHING, [0, 0, 0]),
    (Call::Push(CALLER, 3, [8, 9]), true, 1, CALLING, [0, 8, 9]),
    (Call::Set(0, 7), true, 1, CALLING, [7, 8, 9]),
    (Call::Set(3, 1), true, 1, CALLING, [7, 8, 9]),
    (Call::Start, true, 1, CALLING, [7, 8, 9]),
    (Call::Go(4), true, 1, GONE, [7, 8, 9]),
    (Call::Push(CALLEE, 4, [1, 2]), false, 1, GONE, [7, 8, 9]),
    (Call::Push(CALLEE, 0, [1, 2]), true, 2, CALLED, [1, 2, 0]),
    (Call::Handle(6, 77), true, 2, HANDLES, [1, 2, 0]),
    (Call::Give(Kept::One(5)), true, 2, GIVEN, [1, 2, 0]),
    (Call::Handle(2, 78), true, 2, HANDLES_AGAIN, [1, 2, 0]),
    (Call::Give(Kept::Two(5, 6)), true, 2, GIVEN_LONG, [1, 2, 0]),
    (Call::Go(3), true, 2, GONE_ON, [1, 2, 0]),
    (Call::Record, true, 3, WAITS, [0, 0, 0]),
    (Call::Set(0, 1), true, 3, WAITS, [0, 0, 0]),
    (Call::Go(1), true, 3, WAITS, [0, 0, 0]),
    (Call::Record, false, 3, WAITS, [0, 0, 0]),
    (Call::Start, true, 3, RUNS, [0, 0, 0]),
    (Call::Pop, true, 2, GONE_ON, [1, 2, 0]),
    (Call::Pop, true, 1, GONE, [7, 8, 9]),
    (Call::Push(CALLEE, 0, [3, 4]), true, 2, CALLED, [3, 4, 0]),
];

fn assert_row(rt: &impl Abort, stack: &mut Stack, n: usize, row: &Row) {
    let (next, fits, levels, top, words) = *row;
    let answered = make(stack, next).is_ok() == fits;
    assert!(rt; answered && is_seen(stack, levels, top, words), "row {n}");
}

fn assert_rows(rt: &impl Abort, stack: &mut Stack, rows: &[Row]) {
    for (n, row) in rows.iter().enumerate() {
        assert_row(rt, stack, n, row);
    }
}

#[test]
fn calls_in_turn(rt: HostRuntime) -> Result<(), Fail> {
    let mut stack = Stack::new(rt.alloc(), 3, 6)?;
    assert_rows(&rt, &mut stack, ROWS);
    drop(stack);
    Ok(())
}

// So many frames fit, and no more.
fn is_filled_by(stack: &mut Stack, registers: u16, count: u32) -> bool {
    for _ in 0..count {
        if stack.push(CALLER, registers, &[]).is_err() {
            return false;
        }
    }
    stack.push(CALLEE, registers, &[]) == Err(Full)
}

fn assert_room(rt: &impl Abort, stack: &mut Stack, registers: u16, most: u32) {
    assert!(rt; is_filled_by(stack, registers, most), "{registers}");
    if stack.pop().is_some() {
        assert!(rt; is_filled_by(stack, registers, 1), "{registers}");
    }
    assert_eq!(rt; stack.levels(), most);
}

#[test]
fn room_is_counted(rt: HostRuntime) -> Result<(), Fail> {
    // Of 1,024 levels and 16,384 words: the registers of a frame, and how many such frames there may be.
    for (registers, most) in [
        (0, 1024),
        (16, 1024),
        (17, 963),
        (256, 64),
        (16384, 1),
        (16385, 0),
    ] {
        let mut stack = Stack::new(rt.alloc(), 1024, 16384)?;
        assert_room(&rt, &mut stack, registers, most);
        drop(stack);
    }
    Ok(())
}

/// Whether the form is the range form, how many registers it names, those that it writes, how many the method has, and what they are then.
type Arguments = (bool, u8, [u16; 5], u16, &'static [u32]);

/// There is no room for a third level.
const ARGUMENTS: &[Arguments] = &[
    (false, 0, [0, 0, 0, 0, 0], 2, &[0, 0]),
    (false, 1, [7, 1, 1, 1, 1], 1, &[0xffff_ffff]),
    (false, 2, [3, 1, 0, 0, 0], 4, &[0, 0, 40, 20]),
    (false, 5, [4, 3, 2, 1, 0], 5, &[50, 40, 30, 20, 10]),
    (false, 2, [5, 6, 0, 0, 0], 1, &[60, 70]),
    (true, 0, [2, 0, 0, 0, 0], 1, &[0]),
    (true, 3, [1, 0, 0, 0, 0], 4, &[0, 20, 30, 40]),
    (true, 8, [0, 0, 0, 0, 0], 8, &WORDS),
    (true, 3, [6, 0, 0, 0, 0], 3, &[70, 0xffff_ffff, 0]),
];

fn assert_arguments(rt: &impl Abort, stack: &mut Stack, row: &Arguments) -> Result<(), Fail> {
    let (range, count, first, registers, words) = *row;
    let args = Regs {
        count,
        first,
        range,
    };
    stack.push(CALLER, 0, &WORDS)?;
    stack.push_call(CALLEE, registers, &args)?;
    let frame = stack.copy_top()?;
    assert!(rt; frame.regs.items() == words);
    drop(frame);
    assert!(rt; stack.push_call(CALLEE, registers, &args) == Err(Full));
    Ok(())
}

fn assert_called(rt: &impl Abort, alloc: Global, row: &Arguments) -> Result<(), Fail> {
    let mut stack = Stack::new(alloc, 2, 16)?;
    let done = assert_arguments(rt, &mut stack, row);
    drop(stack);
    done
}

#[test]
fn arguments_are_the_last_registers(rt: HostRuntime) -> Result<(), Fail> {
    for row in ARGUMENTS {
        assert_called(&rt, rt.alloc(), row)?;
    }
    Ok(())
}

fn assert_put_back(rt: &impl Abort, stack: &mut Stack) -> Result<(), Fail> {
    stack.push(CALLER, 3, &[8])?;
    stack.give(Kept::One(12));
    let mut frame = stack.copy_top()?;
    stack.enter_handler(5, 6);
    stack.set_word(2, 33);
    frame.at = 2;
    stack.set_top(&frame);
    drop(frame);
    let put_back = Seen::Code(CALLER, 2, Kept::One(12), None);
    assert!(rt; is_seen(stack, 1, put_back, [0, 0, 8]));
    Ok(())
}

#[test]
fn a_frame_is_copied_and_put_back(rt: HostRuntime) -> Result<(), Fail> {
    let mut stack = Stack::new(rt.alloc(), 2, 4)?;
    let done = assert_put_back(&rt, &mut stack);
    drop(stack);
    done
}

#[test]
fn registers_are_read_and_written(rt: HostRuntime) {
    // The register, what is read there of 4, 5 and 6, and what stands there after 1 and 2 are written from it on.
    let rows = [
        (0, (4, 5), [1, 2, 6]),
        (1, (5, 6), [4, 1, 2]),
        (2, (6, 0), [4, 5, 1]),
        (3, (0, 0), [4, 5, 6]),
        (65535, (0, 0), [4, 5, 6]),
    ];
    for (reg, two, written) in rows {
        let mut words = [4, 5, 6];
        words_are_whole(&words);
        let reads = two_words(&words, reg) == two;
        set_two(&mut words, reg, 1, 2);
        let writes = words == written;
        set_word(&mut words, reg, two.0);
        assert!(rt; reads && writes && word(&words, reg) == two.0);
    }
}

#[test]
fn results_have_words(rt: HostRuntime) {
    for (kept, low, high) in [
        (Kept::None, 0, 0),
        (Kept::One(7), 7, 0),
        (Kept::Two(7, 8), 7, 8),
    ] {
        assert!(rt; low_word(kept) == low && high_word(kept) == high);
    }
}

#[test]
fn heads_go_on(rt: HostRuntime) {
    let mut head = given(handling(begin(CALLER), 4, 77), Kept::One(1));
    let handles = Head {
        method: CALLER,
        at: 4,
        result: Kept::One(1),
        caught: Some(77),
    };
    assert!(rt; head == handles);
    go(&mut head, 6);
    let mut levels = [Level::Code {
        head: handles,
        base: 4,
    }];
    set_last(&mut levels, head);
    let went = Head {
        method: CALLER,
        at: 6,
        result: Kept::None,
        caught: None,
    };
    let changed = last(&levels)
        == Some(Level::Code {
            head: went,
            base: 4,
        });
    assert!(rt; changed && base_of(&levels, 9) == 4 && base_of(&[], 9) == 9);
}

fn assert_moved(rt: &impl Abort, stack: &mut Stack) -> Result<(), Fail> {
    stack.push(CALLER, 1, &[9])?;
    stack.enter_handler(4, 77);
    stack.give(Kept::One(1));
    stack.move_to(6);
    let handles = Head {
        method: CALLER,
        at: 6,
        result: Kept::One(1),
        caught: Some(77),
    };
    assert!(rt; stack.head() == Some(handles) && stack.word(0) == 9);
    Ok(())
}

#[test]
fn a_frame_that_is_moved_keeps_all_else(rt: HostRuntime) -> Result<(), Fail> {
    let mut stack = Stack::new(rt.alloc(), 2, 4)?;
    let done = assert_moved(&rt, &mut stack);
    drop(stack);
    done
}
