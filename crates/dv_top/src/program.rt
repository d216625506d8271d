// The program of a text: its image, its main method, and the schedule at its end.
ghost use Rattle.std.specs.Prelude.{◌≡◌, ◌<◌, ◌-◌, ◌^◌, All, IfOk, length};
ghost use Rattle.dv_load.specs.Images.{Answers, main_in};
ghost use Rattle.dv_machine.specs.Mains.{HasMain};
ghost use Rattle.dv_workers.specs.Entries.{IsOfWorker};
ghost use Rattle.dv_top.specs.Programs.{program_to_replay, program_to_run, with_main};

use dv_defs::{Entry, Image, MethodId, Seq, Text};
use dv_load::{ProgramError, Scheduled, main_method, read_program, read_scheduled};
use std::alloc::Global;

/// A program that is to be run: the main method of a class, and the schedule that stands behind the classes, which is empty where none may.
#[derive(Drop)]
pub struct Program {
    pub image: Image,
    pub main: MethodId,
    pub schedule: Seq<Entry>,
}

/// The program of a text, of which the class of this descriptor is to be run.
pub fn program_to_run(alloc: Global, class: &Text, text: &[u8]) -> Result<Program, ProgramError>
    requires { length text.now < 2 ^ 32 - 1 }
    ensures program { Answers (program_to_run class.now text.now) result }
    ensures main { IfOk result (λ p. HasMain p.image p.main.0) }
{
    let image = read_program(alloc, text)?;
    let scheduled = Scheduled {
        image,
        log: Seq::of(Vec::new(alloc)),
    };
    with_main(alloc, class, scheduled)
}

/// The program of a text with its schedule, of which the class of this descriptor is to be run again.
pub fn program_to_replay(alloc: Global, class: &Text, text: &[u8]) -> Result<Program, ProgramError>
    requires { length text.now < 2 ^ 32 - 1 }
    ensures program { Answers (program_to_replay class.now text.now) result }
    ensures main { IfOk result (λ p. HasMain p.image p.main.0) }
    ensures schedule { IfOk result (λ p. All IsOfWorker p.schedule) }
{
    let scheduled = read_scheduled(alloc, text)?;
    with_main(alloc, class, scheduled)
}

/// An image and a schedule with the main method of a class.
fn with_main(alloc: Global, class: &Text, scheduled: Scheduled) -> Result<Program, ProgramError>
    ensures program { Answers (with_main scheduled.image scheduled.log (main_in scheduled.image class.now)) result }
    ensures main { IfOk result (λ p. HasMain p.image p.main.0) }
    ensures schedule { IfOk result (λ p. p.schedule ≡ scheduled.log) }
{
    match main_method(alloc, &scheduled.image, class.bytes()) {
        Ok(main) => Ok(Program {
            image: scheduled.image,
            main,
            schedule: scheduled.log,
        }),
        Err(error) => {
            drop(scheduled);
            Err(error)
        }
    }
}
