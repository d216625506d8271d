// A schedule as lines of text.
ghost use Rattle.std.specs.Prelude.{◌≡◌, ◌++◌, decimal, IfOk, OnOk};
ghost use Rattle.dv_log.specs.Writing.{entry_line, log_text};

use dv_defs::{Entry, Text};
use itoa::Buffer;
use std::alloc::{AllocError, Global};

/// Appends a number in decimal.
fn add_number(text: &mut Vec<u8>, n: u32) -> Result<(), AllocError>
    ensures { OnOk result (text.new.items ≡ text.old.items ++ decimal n) }
{
    text.extend_from_slice(Buffer::new().format(n).as_bytes())
}

/// Appends the line of an entry.
fn add_entry(text: &mut Vec<u8>, entry: Entry) -> Result<(), AllocError>
    ensures { OnOk result (text.new.items ≡ text.old.items ++ entry_line entry) }
{
    add_number(text, entry.worker)?;
    text.push(b' ')?;
    add_number(text, entry.thread)?;
    text.push(b' ')?;
    add_number(text, entry.steps)?;
    text.push(b'\n')?;
    Ok(())
}

/// The schedule as text: a line `WORKER THREAD STEPS` for each entry, which LF ends.
///
/// # Errors
///
/// Want of memory.
pub fn print_log(alloc: Global, log: &[Entry]) -> Result<Text, AllocError>
    ensures { IfOk result (λ t. t ≡ log_text log.now) }
{
    let mut text = Vec::new(alloc);
    for entry in log {
        add_entry(&mut text, *entry)?;
    }
    Text::of(text)
}
