// Schedules as they are printed, and what is said of one that is refused.
ghost use Rattle.std.specs.Prelude.{◌≡◌, ◌++◌, IfOk, OnOk, Some};
ghost use Rattle.dv_top.specs.Runs.{schedule_line, schedule_text};
ghost use Rattle.dv_top.specs.Scheduling.{line_of};

use crate::reply::{Reply, fixed};
use crate::status::Status;
use dv_defs::Entry;
use dv_log::print_log;
use dv_sound::ReplayError;
use std::alloc::{AllocError, Global};

/// Appends the block of a schedule, which is read again behind the classes of a text.
pub fn add_schedule(text: &mut Vec<u8>, log: &[Entry]) -> Result<(), AllocError>
    ensures { OnOk result (text.new.items ≡ text.old.items ++ schedule_text log.now) }
{
    let entries = print_log(*text.allocator(), log)?;
    text.extend_from_slice(b".schedule\n")?;
    text.extend_from_slice(entries.bytes())?;
    text.extend_from_slice(b".end schedule\n")
}

/// The reply to a schedule that is refused: the entry at which it is, and why.
pub fn refused_schedule(alloc: Global, error: ReplayError) -> Result<Reply, AllocError>
    ensures { IfOk result (λ reply. (reply.status ≡ Status.Schedule) × (line_of error ≡ Some reply.text.items)) }
{
    match error {
        ReplayError::NotRunnable(entry) => refused_at(alloc, entry, "not runnable"),
        ReplayError::Long(entry) => refused_at(alloc, entry, "past the end"),
        ReplayError::Short(entry) => refused_at(alloc, entry, "stops early"),
        ReplayError::Memory(error) => Err(error),
    }
}

fn refused_at(alloc: Global, entry: u32, why: &str) -> Result<Reply, AllocError>
    ensures { IfOk result (λ reply. (reply.status ≡ Status.Schedule) × (reply.text.items ≡ schedule_line entry why.now)) }
{
    let line = format!(in alloc; "#schedule entry {entry}: {why}\n")?;
    fixed(alloc, Status::Schedule, line.as_bytes())
}
