// What follows the guest's printed bytes in the final text of a run.
ghost use Rattle.std.specs.Prelude.{◌≡◌, ◌++◌, IfOk, OnOk, Some, decimal};
ghost use Rattle.dv_machine.specs.Final.{blocked_line, blocked_text, ends_well};
ghost use Rattle.dv_core.specs.Machines.{machine_of};
ghost use Rattle.dv_core.specs.Watching.{AreWatchable};
ghost use Rattle.dv_final.specs.Final.{blocked_lines, ending_line, ending_lines, ending_lines_by, ending_text, final_lines_of, newline_after};

use crate::classes::name_at;
use crate::uncaught::add_uncaught;
use dv_core::Vm;
use dv_defs::{Blocked, Ending, Image, Text};
use itoa::Buffer;
use std::alloc::{AllocError, Global};

/// Whether bytes end with LF, or there are none.
fn ends_well(output: &[u8]) -> bool
    ensures { result ≡ ends_well output.now }
{
    match output.last() {
        Some(last) => *last == b'\n',
        None => true,
    }
}

/// Appends what the printed bytes lack: LF where they don't end with it.
fn add_newline_after(text: &mut Vec<u8>, output: &[u8]) -> Result<(), AllocError>
    ensures { OnOk result (text.new.items ≡ text.old.items ++ newline_after output.now) }
{
    if !ends_well(output) {
        text.push(b'\n')?;
    }
    Ok(())
}

fn add_number(text: &mut Vec<u8>, number: u32) -> Result<(), AllocError>
    ensures { OnOk result (text.new.items ≡ text.old.items ++ decimal number) }
{
    text.extend_from_slice(Buffer::new().format(number).as_bytes())
}

/// Appends by what a thread is held up.
fn add_blocked(text: &mut Vec<u8>, image: &Image, blocked: Blocked) -> Result<(), AllocError>
    ensures { OnOk result (text.new.items ≡ text.old.items ++ blocked_text image.now blocked) }
{
    match blocked {
        Blocked::Monitor => text.extend_from_slice(b" monitor"),
        Blocked::Wait => text.extend_from_slice(b" wait"),
        Blocked::Class(class) => {
            text.extend_from_slice(b" class ")?;
            text.extend_from_slice(name_at(image, class))
        }
        Blocked::Join(thread) => {
            text.extend_from_slice(b" join ")?;
            add_number(text, thread)
        }
    }
}

/// Appends the line of a thread, where something holds it up.
fn add_blocked_line(
    text: &mut Vec<u8>,
    image: &Image,
    thread: u32,
    blocked: Option<Blocked>,
) -> Result<(), AllocError>
    ensures { OnOk result (text.new.items ≡ text.old.items ++ blocked_line image.now thread blocked) }
{
    let Some(blocked) = blocked else {
        return Ok(());
    };
    text.extend_from_slice(b"#blocked ")?;
    add_number(text, thread)?;
    add_blocked(text, image, blocked)?;
    text.push(b'\n')?;
    Ok(())
}

/// Appends a line for each thread that is held up: `#blocked T monitor`, `#blocked T wait`, `#blocked T class LX;` or `#blocked T join U`.
fn add_blocked_lines(text: &mut Vec<u8>, image: &Image, vm: &Vm) -> Result<(), AllocError>
    ensures { AreWatchable image.now vm.now → OnOk result (text.new.items ≡ text.old.items ++ blocked_lines image.now (machine_of vm.now) (machine_of vm.now).threads 0) }
{
    let Ok(count) = u32::try_from(vm.guest.threads.stacks.len()) else {
        return Ok(());
    };
    for thread in 0..count {
        add_blocked_line(text, image, thread, vm.blocked(image, thread))?;
    }
    Ok(())
}

/// Appends what is said of an ending.
fn add_ending(text: &mut Vec<u8>, ending: Ending) -> Result<(), AllocError>
    ensures { OnOk result (text.new.items ≡ text.old.items ++ ending_text ending) }
{
    match ending {
        Ending::Done => text.extend_from_slice(b"done"),
        Ending::NoRunnable => text.extend_from_slice(b"blocked"),
        Ending::Steps => text.extend_from_slice(b"steps"),
        Ending::Output => text.extend_from_slice(b"output"),
    }
}

/// Appends the line of an ending.
fn add_ending_line(text: &mut Vec<u8>, ending: Ending) -> Result<(), AllocError>
    ensures { OnOk result (text.new.items ≡ text.old.items ++ ending_line ending) }
{
    text.extend_from_slice(b"#end ")?;
    add_ending(text, ending)?;
    text.push(b'\n')?;
    Ok(())
}

/// Appends the line of an ending, where none may step behind those of the threads that are held up.
fn add_lines_of(
    text: &mut Vec<u8>,
    image: &Image,
    vm: &Vm,
    ending: Ending,
) -> Result<(), AllocError>
    ensures { AreWatchable image.now vm.now → OnOk result (text.new.items ≡ text.old.items ++ ending_lines_by image.now (machine_of vm.now) (Some ending)) }
{
    match ending {
        Ending::NoRunnable => {
            add_blocked_lines(text, image, vm)?;
            add_ending_line(text, ending)
        }
        _ => add_ending_line(text, ending),
    }
}

/// Appends how a run has ended; nothing where it goes on.
fn add_ending_lines(text: &mut Vec<u8>, image: &Image, vm: &Vm) -> Result<(), AllocError>
    ensures { AreWatchable image.now vm.now → OnOk result (text.new.items ≡ text.old.items ++ ending_lines image.now (machine_of vm.now)) }
{
    match vm.ending(image) {
        Some(ending) => add_lines_of(text, image, vm, ending),
        None => Ok(()),
    }
}

/// What follows the guest's printed bytes in the final text of a run: LF where the bytes don't end with it, a line for each thread that died of an
/// exception, and where the run has ended, a line for each thread that is held up if none may step, and the line of the ending. Each line ends
/// with LF.
///
/// # Errors
///
/// Want of memory.
pub fn final_lines(alloc: Global, image: &Image, vm: &Vm) -> Result<Text, AllocError>
    ensures { AreWatchable image.now vm.now → IfOk result (λ text. text ≡ final_lines_of image.now (machine_of vm.now)) }
{
    let mut text = Vec::new(alloc);
    add_newline_after(&mut text, &vm.guest.output)?;
    add_uncaught(&mut text, image, &vm.guest.heap, &vm.guest.threads)?;
    add_ending_lines(&mut text, image, vm)?;
    Text::of(text)
}
