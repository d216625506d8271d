// The image of a text, and the schedule at its end.
ghost use Rattle.std.specs.Prelude.{◌≡◌, ◌<◌, ◌-◌, ◌^◌, IfOk, length};
ghost use Rattle.dv_defs.specs.Linked.{AreNamed};
ghost use Rattle.dv_load.specs.Images.{Answers, boot_classes, image_in, image_of, scheduled_in};

use crate::errors::ProgramError;
use dv_boot::boot_text;
use dv_classread::read_classes;
use dv_defs::{ClassDef, Entry, Image, LineError, Seq};
use dv_hier::Classes;
use dv_resolve::link;
use std::alloc::{AllocError, Global};

/// A program, and the schedule on which it is run again.
#[derive(Drop)]
pub struct Scheduled {
    pub image: Image,
    pub log: Seq<Entry>,
}

/// The number of boot classes.
const BOOT_COUNT: u32 = 33;

/// The classes that each program finds beside its own.
fn boot_classes(alloc: Global) -> Result<Vec<ClassDef>, AllocError>
    ensures { IfOk result (λ v. v.items ≡ boot_classes) }
{
    match read_classes(alloc, boot_text().as_bytes(), false) {
        Ok(read) => Ok(read.classes.into_vec()),
        Err(LineError::At { .. }) => Ok(Vec::new(alloc)),
        Err(LineError::Memory) => Err(AllocError),
    }
}

/// Links classes behind the boot classes.
fn link_program(alloc: Global, mut program: Vec<ClassDef>) -> Result<Image, ProgramError>
    requires named { AreNamed program.items }
    ensures { Answers (image_of program.items) result }
{
    let mut classes = boot_classes(alloc)?;
    classes.append(&mut program)?;
    match Classes::new(classes, BOOT_COUNT) {
        Some(classes) => Ok(link(alloc, classes)?),
        None => unreachable!(),
    }
}

/// Reads the classes of a text and links them behind the boot classes.
///
/// # Errors
///
/// `Refused`: the first bad line, else the first refusal of a body that isn't assembled, else the first class that isn't linked.
/// `Memory`.
#[tactic(auto, unfolding(crate::specs::Images::image_in))]
pub fn read_program(alloc: Global, text: &[u8]) -> Result<Image, ProgramError>
    requires { length text.now < 2 ^ 32 - 1 }
    ensures { Answers (image_in text.now) result }
{
    let read = read_classes(alloc, text, false)?;
    link_program(alloc, read.classes.into_vec())
}

/// Reads the classes of a text, behind which its schedule may stand, and links them behind the boot classes.
///
/// # Errors
///
/// `Refused`: the first bad line, those of the schedule among them, else as `read_program`. `Memory`.
#[tactic(auto, unfolding(crate::specs::Images::scheduled_in))]
pub fn read_scheduled(alloc: Global, text: &[u8]) -> Result<Scheduled, ProgramError>
    requires { length text.now < 2 ^ 32 - 1 }
    ensures { Answers (scheduled_in text.now) result }
{
    let read = read_classes(alloc, text, true)?;
    let image = link_program(alloc, read.classes.into_vec())?;
    Ok(Scheduled {
        image,
        log: read.log,
    })
}
