// The line that tells a refusal.
ghost use Rattle.std.specs.Prelude.{◌≡◌, ◌++◌, decimal, IfOk, OnOk};
ghost use Rattle.dv_console.specs.Refusals.{reason, refusal_text};

use crate::kinds::{add_link_text, line_text};
use dv_defs::{LineKind, LinkKind, Text};
use itoa::Buffer;
use std::alloc::{AllocError, Global};

/// Why a program is refused.
#[derive(Drop)]
pub enum Refusal {
    /// A line, counted from 1, is bad.
    Line(u32, LineKind),
    /// The class of this descriptor isn't linked.
    Link(Text, LinkKind),
}

fn add_number(line: &mut Vec<u8>, n: u32) -> Result<(), AllocError>
    ensures { OnOk result (line.new.items ≡ line.old.items ++ decimal n) }
{
    line.extend_from_slice(Buffer::new().format(n).as_bytes())
}

/// Appends whose refusal it is, and why.
fn add_refusal(line: &mut Vec<u8>, refusal: &Refusal) -> Result<(), AllocError>
    ensures { OnOk result (line.new.items ≡ line.old.items ++ reason refusal.now) }
{
    match refusal {
        Refusal::Line(number, kind) => {
            line.extend_from_slice(b"line ")?;
            add_number(line, *number)?;
            line.extend_from_slice(b": ")?;
            line.extend_from_slice(line_text(*kind))?;
        }
        Refusal::Link(class, kind) => {
            line.extend_from_slice(b"class ")?;
            line.extend_from_slice(class.bytes())?;
            line.extend_from_slice(b": ")?;
            add_link_text(line, kind)?;
        }
    }
    Ok(())
}

/// The line that tells a refusal, which LF ends: `#refused line N: TEXT`, or `#refused class LX;: TEXT`.
///
/// # Errors
///
/// Want of memory.
#[tactic(auto, unfolding(crate::specs::Refusals::refusal_text))]
pub fn refusal_line(alloc: Global, refusal: &Refusal) -> Result<Text, AllocError>
    ensures { IfOk result (λ line. line ≡ refusal_text refusal.now) }
{
    let mut line = Vec::from_slice(alloc, b"#refused ")?;
    add_refusal(&mut line, refusal)?;
    line.push(b'\n')?;
    Text::of(line)
}
