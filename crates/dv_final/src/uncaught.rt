// The lines of the threads that died of an exception.
ghost use Rattle.std.specs.Prelude.{◌≡◌, ◌++◌, OnOk};
ghost use Rattle.dv_threads.specs.Kept.{AreAligned, threads_of};
ghost use Rattle.dv_final.specs.Final.{uncaught, uncaught_by_ends, uncaught_line};

use crate::classes::class_name_of;
use crate::messages::add_message;
use dv_defs::{End, Image};
use dv_heap::Heap;
use dv_names::java_text;
use dv_threads::Threads;
use itoa::Buffer;
use std::alloc::AllocError;

/// Appends the line of a thread that died of this exception.
fn add_line(
    text: &mut Vec<u8>,
    image: &Image,
    heap: &Heap,
    thread: usize,
    exception: u32,
) -> Result<(), AllocError>
    ensures { OnOk result (text.new.items ≡ text.old.items ++ uncaught_line image.now heap.now thread (End.Died exception)) }
{
    let class = java_text(*text.allocator(), class_name_of(image, heap, exception))?;
    text.extend_from_slice(b"#uncaught ")?;
    text.extend_from_slice(Buffer::new().format(thread).as_bytes())?;
    text.push(b' ')?;
    text.extend_from_slice(class.bytes())?;
    add_message(text, image, heap, exception)?;
    text.push(b'\n')?;
    Ok(())
}

/// Appends the line of a thread, where it died.
fn add_end(
    text: &mut Vec<u8>,
    image: &Image,
    heap: &Heap,
    thread: usize,
    end: End,
) -> Result<(), AllocError>
    ensures { OnOk result (text.new.items ≡ text.old.items ++ uncaught_line image.now heap.now thread end) }
{
    match end {
        End::Died(exception) => add_line(text, image, heap, thread, exception),
        _ => Ok(()),
    }
}

/// Appends a line for each of these threads that died.
fn add_ends(text: &mut Vec<u8>, image: &Image, heap: &Heap, ends: &[End]) -> Result<(), AllocError>
    ensures { OnOk result (text.new.items ≡ text.old.items ++ uncaught_by_ends image.now heap.now ends.now 0) }
{
    for (thread, end) in ends.iter().enumerate() {
        add_end(text, image, heap, thread, *end)?;
    }
    Ok(())
}

/// Appends a line for each thread that died: `#uncaught T CLASS`, with `: MESSAGE` where the exception has one.
pub fn add_uncaught(
    text: &mut Vec<u8>,
    image: &Image,
    heap: &Heap,
    threads: &Threads,
) -> Result<(), AllocError>
    ensures { AreAligned threads.now → OnOk result (text.new.items ≡ text.old.items ++ uncaught image.now heap.now (threads_of threads.now) 0) }
{
    add_ends(text, image, heap, &threads.ends)
}
