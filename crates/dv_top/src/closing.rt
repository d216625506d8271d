// What stands behind the final text of a run.
ghost use Rattle.std.specs.Prelude.{◌≡◌, ◌++◌, ◌≤◌, OnOk};
ghost use Rattle.dv_top.specs.Runs.{closing_text, demo_line};
ghost use Rattle.dv_top.specs.Words.{closing_of};

use crate::scheduling::add_schedule;
use dv_defs::Entry;
use std::alloc::AllocError;

/// What stands behind the final text of a run.
#[derive(Clone, Copy)]
pub enum Closing {
    /// Nothing.
    Nothing,
    /// The schedule that was run, as a block that may stand behind the classes of a text.
    Schedule,
    /// The line that tells how large a demo was.
    Demo { classes: u32, threads: u32 },
}

impl Closing {
    /// The schedule, if it is to be shown.
    pub fn of(shown: bool) -> Closing
        ensures { result ≡ closing_of shown }
    {
        if shown {
            Closing::Schedule
        } else {
            Closing::Nothing
        }
    }
}

/// Appends what stands behind the final text of a run with this log.
pub fn add_closing(text: &mut Vec<u8>, behind: Closing, log: &[Entry]) -> Result<(), AllocError>
    ensures { OnOk result (text.new.items ≡ text.old.items ++ closing_text behind log.now) }
{
    match behind {
        Closing::Nothing => Ok(()),
        Closing::Schedule => add_schedule(text, log),
        Closing::Demo { classes, threads } => add_demo(text, classes, threads),
    }
}

/// Appends the line of a demo.
fn add_demo(text: &mut Vec<u8>, classes: u32, threads: u32) -> Result<(), AllocError>
    ensures { OnOk result (text.new.items ≡ text.old.items ++ demo_line classes threads) }
{
    let methods = u64::from(classes) + 3;
    let line = format!(in *text.allocator();
        "#demo classes {classes} threads {threads} methods {methods}\n"
    )?;
    text.extend_from_slice(line.as_bytes())?;
    Ok(())
}
