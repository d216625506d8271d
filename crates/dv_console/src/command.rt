// What the words of a command line ask for.

use dv_defs::{Limits, Text};
use std::alloc::AllocError;

/// A command with its values. A name is the descriptor of the class that NAME names.
#[derive(PartialEq, Eq, Debug, Drop)]
pub enum Cmd {
    /// Read the text, verify it, and run the class's main method, on so many workers or on the schedule of a seed;
    /// print the schedule if `log`.
    Run {
        name: Text,
        workers: u32,
        seed: Option<u64>,
        limits: Limits,
        log: bool,
    },
    /// Read the text with its schedule, verify it, and run the class's main method on that schedule.
    Replay {
        name: Text,
        limits: Limits,
    },
    /// Read the text, link it and verify it.
    Verify,
    /// Read the text, assemble its classes, and print them.
    List,
    /// Make a program of so many classes and threads from a number, and run it.
    Demo {
        number: u64,
        classes: u32,
        threads: u32,
        workers: u32,
    },
}

/// Why there is no command.
#[derive(Clone, Copy, PartialEq, Eq, Debug)]
pub enum WordError {
    /// The words aren't a command.
    Usage,
    /// Memory is wanting.
    Memory,
}

impl From<AllocError> for WordError {
    ghost use Rattle.std.specs.Prelude.{◌≡◌};
    ghost use Rattle.dv_console.specs.declared.command.WordError.TheVariants.{Memory};

    ghost from_gives = { λ _ e. e ≡ Memory };

    fn from(_: AllocError) -> WordError {
        WordError::Memory
    }
}
