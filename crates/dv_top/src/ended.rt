// The reply to a run that has ended.
ghost use Rattle.std.specs.Prelude.{◌≡◌, ◌≢◌, ◌++◌, IfOk, None as Nothing, OnOk, Some, slice_get};
ghost use Rattle.dv_defs.specs.declared.run.Ending.{Ending};
ghost use Rattle.dv_defs.specs.Linked.{IsImage};
ghost use Rattle.dv_defs.specs.Pools.{Method, method_at};
ghost use Rattle.dv_machine.specs.Final as final;
ghost use Rattle.dv_machine.specs.Running.{ending_of};
ghost use Rattle.dv_machine.specs.State.{Machine};
ghost use Rattle.dv_sound.specs.Runs.{AtItsState, IsAt, IsAtSome};
ghost use Rattle.dv_top.specs.declared.closing.Closing.{Closing as ClosingOf};
ghost use Rattle.dv_top.specs.Runs.{IsRun, closing_text, end_of, status_of};
ghost use Rattle.dv_top.specs.Status.{code_of};
ghost use Rattle.dv_top.specs.Working.{tail_of};

use crate::closing::{Closing, add_closing};
use crate::printed::Printed;
use crate::reply::Reply;
use crate::status::Status;
use dv_defs::End;
use dv_final::final_lines;
use dv_final::laws::final_lines_follow;
use dv_rules::Verified;
use dv_sound::SafeVm;
use std::alloc::{AllocError, Global};

/// The reply to a run that has ended: its final text, and what stands behind that.
pub fn reply_of_ended(alloc: Global, run: &SafeVm, behind: Closing) -> Result<Reply, AllocError>
    requires { (main : Method) (m : Machine) → IsAt run.now main m → ending_of run.now.verified.image m ≢ Nothing }
    ensures { (main : Method) → method_at run.now.verified.image run.now.main.0 ≡ Some main
        → IfOk result (λ reply. IsRun run.now.verified.image main run.now.machine.limits run.now.log behind (code_of reply.status) reply.text.items) }
{
    tail_follows(run);
    let vm = run.vm();
    let mut text = Vec::from_slice(alloc, vm.output())?;
    add_tail(&mut text, run, behind)?;
    Ok(Reply {
        status: status_of_ended(run),
        text: Printed::of(text),
    })
}

/// What there is to write of a run that has ended, behind its output, which is written already.
pub fn tail_of_ended(alloc: Global, run: &SafeVm, behind: Closing) -> Result<Reply, AllocError>
    requires { (main : Method) (m : Machine) → IsAt run.now main m → ending_of run.now.verified.image m ≢ Nothing }
    ensures ran { AtItsState run.now (λ main m. IfOk result (λ reply.
        IsRun run.now.verified.image main run.now.machine.limits run.now.log behind (code_of reply.status)
        (run.now.machine.shared.output ++ reply.text.items))) }
    ensures good { IfOk result (λ reply. reply.status ≢ Status.WriteFault) }
{
    tail_follows(run);
    let mut text = Vec::new(alloc);
    add_tail(&mut text, run, behind)?;
    Ok(Reply {
        status: status_of_ended(run),
        text: Printed::of(text),
    })
}

/// The status of a run that has ended.
fn status_of_ended(run: &SafeVm) -> Status
    requires { (main : Method) (m : Machine) → IsAt run.now main m → ending_of run.now.verified.image m ≢ Nothing }
    ensures told { AtItsState run.now (λ main m. (e : Ending) → ending_of run.now.verified.image m ≡ Some e → result ≡ status_of m e) }
    ensures leads { IsAtSome run.now }
{
    let Some(ending) = run.ending() else {
        unreachable!();
    };
    Status::of(ending, first_end(run))
}

/// How the first thread of a run ended.
fn first_end(run: &SafeVm) -> Option<End>
    ensures { (main : Method) (m : Machine) → IsAt run.now main m → result ≡ end_of (slice_get m.threads 0) }
{
    first_of(&run.vm().threads().ends)
}

fn first_of(ends: &[End]) -> Option<End>
    ensures { result ≡ slice_get ends.now 0 }
{
    ends.get(0).copied()
}

/// Appends what stands behind the output.
fn add_tail(text: &mut Vec<u8>, run: &SafeVm, behind: Closing) -> Result<(), AllocError>
    ensures { OnOk result (text.new.items ≡ text.old.items ++ tail_of run.now behind) }
{
    let verified = run.verified();
    let lines = final_lines(*text.allocator(), &verified.image, run.vm())?;
    text.extend_from_slice(lines.bytes())?;
    add_closing(text, behind, run.log())
}

/// The output and what stands behind it are the final text and what stands behind that: does nothing.
fn tail_follows(run: &SafeVm)
    ensures { AtItsState run.now (λ main m. (behind : ClosingOf) →
        run.now.machine.shared.output ++ tail_of run.now behind
        ≡ final.final_text run.now.verified.image m ++ closing_text behind run.now.log) }
{
    final_lines_follow();
    is_linked(run.verified());
    let _ = run.vm();
}

/// A verified image is one that linking gives: does nothing.
fn is_linked(verified: &Verified)
    ensures { IsImage verified.now.image }
{
    let image = &verified.image;
    let _classes = &image.classes;
}
