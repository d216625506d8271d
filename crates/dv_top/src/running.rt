// The reply to a text of which a class is to be run by the turns of a seed.
ghost use Rattle.std.specs.Prelude.{◌≡◌, ◌≢◌, ℕ, List, [], All, IfOk, Some};
ghost use Rattle.dv_defs.specs.Pools.{Method, method_at};
ghost use Rattle.dv_machine.specs.Replaying.{IsLegal};
ghost use Rattle.dv_sound.specs.Moves.{AreUsable};
ghost use Rattle.dv_machine.specs.Mains.{HasMain};
ghost use Rattle.dv_sound.specs.Runs.{IsAtSome, IsSameRun};
ghost use Rattle.dv_workers.specs.Entries.{IsOfWorker};
ghost use Rattle.dv_top.specs.Answering.{IsIdle, IsLogOfRun, IsReadOf, IsTold};
ghost use Rattle.dv_top.specs.Programs.{program_to_run};
ghost use Rattle.dv_top.specs.Runs.{AreFirstTurns, AreTurns, IsRun};
ghost use Rattle.dv_top.specs.Said.{IsSaidOfRun};
ghost use Rattle.dv_top.specs.Status.{code_of};

use crate::closing::Closing;
use crate::ended::reply_of_ended;
use crate::preparing::{Prepared, prepare_text};
use crate::reply::Reply;
use crate::status::Status;
use dv_defs::{Entry, Limits, MethodId, Text};
use dv_io::Gate;
use dv_rules::Verified;
use dv_sound::SafeVm;
use std::alloc::{AllocError, Global};
use std::thread::Threads;

/// How a class is run: by turns that the words of a seed pick, within which limits, and what stands behind the final text.
#[derive(Clone, Copy)]
pub struct Running {
    pub seed: u64,
    pub limits: Limits,
    pub behind: Closing,
}

/// The reply to a text of which at most one byte past the limit was read, where a class of it is to be run. The log, which is empty before, gets
/// the turns of the run, also where memory is wanting.
pub fn reply_to_running<R: Threads + Sync, G: Gate + Sync>(
    rt: &R,
    alloc: Global,
    class: &Text,
    how: &Running,
    text: &[u8],
    log: &mut Vec<Entry>,
    gate: &G,
) -> Result<Reply, AllocError>
    requires empty { log.old.items ≡ [] }
    requires usable { AreUsable how.now.limits }
    ensures told { IfOk result (λ reply. IsTold (code_of reply.status) × (code_of reply.status ≢ code_of Status.Usage)) }
    ensures said { (bytes : List ℕ) → IsReadOf bytes text.now
        → IfOk result (λ reply. IsSaidOfRun bytes (program_to_run class.now bytes) (Some how.now.seed) how.now.limits how.now.behind log.new.items
        (code_of reply.status) reply.text.items) }
    ensures entries { All IsOfWorker log.new.items }
    ensures idle { IfOk result (λ reply. IsIdle (code_of reply.status) → log.new.items ≡ []) }
    ensures legal { (bytes : List ℕ) → IsReadOf bytes text.now → log.new.items ≢ []
        → IsLogOfRun bytes (program_to_run class.now bytes) (Some how.now.seed) how.now.limits log.new.items }
{
    match prepare_text(rt, alloc, class, text, gate) {
        Ok(Prepared::Accepted(verified, main)) => {
            let reply = reply_of_run(alloc, &verified, main, how, log);
            drop(verified);
            reply
        }
        Ok(Prepared::Told(reply)) => Ok(reply),
        Err(error) => Err(error),
    }
}

/// Runs a verified program.
fn reply_of_run(
    alloc: Global,
    verified: &Verified,
    main: MethodId,
    how: &Running,
    log: &mut Vec<Entry>,
) -> Result<Reply, AllocError>
    requires empty { log.old.items ≡ [] }
    requires main { HasMain verified.now.image main.0 }
    requires usable { AreUsable how.now.limits }
    ensures ran { (m : Method) → method_at verified.now.image main.0 ≡ Some m
        → IfOk result (λ reply. AreTurns (Some how.now.seed) verified.now.image m how.now.limits log.new.items
        × IsRun verified.now.image m how.now.limits log.new.items how.now.behind (code_of reply.status) reply.text.items) }
    ensures legal { (m : Method) → method_at verified.now.image main.0 ≡ Some m → log.new.items ≢ []
        → IsLegal verified.now.image m how.now.limits log.new.items
        × AreFirstTurns (Some how.now.seed) verified.now.image m how.now.limits log.new.items }
{
    let mut run = SafeVm::open(alloc, verified, main, how.limits)?;
    let reply = reply_of_turns(alloc, &mut run, how);
    has_state(&run);
    *log = run.into_log();
    reply
}

/// The log of a run leads to a state: does nothing.
fn has_state(run: &SafeVm)
    ensures { IsAtSome run.now }
{
    let _ = run.log();
}

/// The reply to a run that has just begun.
fn reply_of_turns(alloc: Global, run: &mut SafeVm, how: &Running) -> Result<Reply, AllocError>
    requires { (run.old.log ≡ []) × (run.old.lent ≡ []) }
    ensures ran { (m : Method) → method_at run.old.verified.image run.old.main.0 ≡ Some m
        → IfOk result (λ reply. AreTurns (Some how.now.seed) run.old.verified.image m run.old.machine.limits run.new.log
        × IsRun run.old.verified.image m run.old.machine.limits run.new.log how.now.behind (code_of reply.status) reply.text.items) }
    ensures first { (m : Method) → method_at run.old.verified.image run.old.main.0 ≡ Some m
        → AreFirstTurns (Some how.now.seed) run.old.verified.image m run.old.machine.limits run.new.log }
    ensures same { IsSameRun run.old run.new }
{
    run.seeded(how.seed)?;
    reply_of_ended(alloc, run, how.behind)
}
