// The main method of a class.
ghost use Rattle.std.specs.Prelude.{IfOk};
ghost use Rattle.dv_machine.specs.Mains.{HasMain};
ghost use Rattle.dv_load.specs.Images.{Answers, main_in};

use crate::errors::ProgramError;
use dv_defs::{Image, MethodId};
use dv_resolve::find_main;
use std::alloc::Global;

/// The main method that the class of this descriptor declares itself: `main([Ljava/lang/String;)V`, or else `main()V`, static and with
/// a body.
///
/// # Errors
///
/// `Refused`: there is no such class, or it has no main method. `Memory`.
pub fn main_method(alloc: Global, image: &Image, class: &[u8]) -> Result<MethodId, ProgramError>
    ensures found { Answers (main_in image.now class.now) result }
    ensures main { IfOk result (λ id. HasMain image.now id.0) }
{
    Ok(find_main(alloc, image, class)?)
}
