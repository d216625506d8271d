// The method that runs on top.
ghost use Rattle.std.specs.Prelude.{◌≡◌, option_map};
ghost use Rattle.dv_ops.specs.Meaning.{method_of};
ghost use Rattle.dv_words.specs.Stacks.{first};
ghost use Rattle.dv_call.specs.Landings.{running_in};

use dv_defs::Image;
use dv_frames::Stack;
use dv_ops::{Method, method_at};

/// The method of the frame on top.
pub fn running<'a>(image: &'a Image, stack: &Stack) -> Option<Method<'a>>
    ensures { option_map method_of result ≡ running_in image.now (first stack.now.levels) }
{
    let head = stack.head()?;
    method_at(image, head.method)
}
