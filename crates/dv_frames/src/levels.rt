// The levels of a stack, as they stand beside the arena.
ghost use Rattle.std.specs.Prelude.{◌≡◌, ◌≤◌, ◌<◌, ◌++◌, ◌∷◌, [], reverse, vec_capacity, vec_len};
ghost use Rattle.dv_frames.specs.Arena.{top_base, with_head, with_running, on_top_of};

use crate::heads::Head;
use dv_defs::{ClassId, MethodId};

/// A frame of code, whose words begin at this place of the arena, or the record of a class that is being initialised,
/// which is running once its initialiser was called.
#[derive(Clone, Copy, PartialEq, Eq, Debug)]
pub enum Level {
    Code { head: Head, base: usize },
    Init { class: ClassId, running: bool },
}

/// What is on top of a stack: the method that runs there with the address of its next instruction in units, or the record of a class.
#[derive(Clone, Copy, PartialEq, Eq, Debug)]
pub enum Top {
    Code { method: MethodId, at: u32 },
    Init { class: ClassId, running: bool },
}

/// The level on top.
#[inline]
pub fn last(levels: &[Level]) -> Option<Level>
    ensures { result ≡ on_top_of (reverse levels.now) }
{
    levels.last().copied()
}

/// Where the words on top begin; at the end where the level on top isn't code.
#[inline]
pub fn base_of(levels: &[Level], end: usize) -> usize
    ensures { result ≡ top_base (reverse levels.now) end }
{
    match last(levels) {
        Some(Level::Code { base, .. }) => base,
        _ => end,
    }
}

/// Puts another head on the level on top, where that is code.
#[inline]
pub fn set_last(levels: &mut [Level], head: Head)
    ensures { reverse levels.new ≡ with_head (reverse levels.old) head }
{
    if let Some(Level::Code { base, .. }) = last(levels) {
        let at = levels.len() - 1;
        levels[at] = Level::Code { head, base };
    }
}

/// The record on top is running from now on, where that is one.
pub fn start_last(levels: &mut [Level])
    ensures { reverse levels.new ≡ with_running (reverse levels.old) }
{
    if let Some(Level::Init { class, .. }) = last(levels) {
        let at = levels.len() - 1;
        levels[at] = Level::Init {
            class,
            running: true,
        };
    }
}

/// Adds a level where there is room.
pub fn add_level(levels: &mut Vec<Level>, level: Level)
    requires { vec_len levels.old < vec_capacity levels.old }
    ensures items { levels.new.items ≡ levels.old.items ++ level ∷ [] }
    ensures room { vec_capacity levels.old ≤ vec_capacity levels.new }
{
    let _ = levels.push(level);
}
