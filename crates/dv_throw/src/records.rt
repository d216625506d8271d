// The records of classes whose initialisers ended by an exception.
ghost use Rattle.std.specs.Prelude.{◌≡◌, option_map};
ghost use Rattle.dv_machine.specs.Classes.{Erroneous, InProgress, state_at, with_state};
ghost use Rattle.dv_machine.specs.Unwinding.{is_method_of as is_of};
ghost use Rattle.dv_ops.specs.Meaning.{method_of};
ghost use Rattle.dv_words.specs.Stacks.{below, with_levels};
ghost use Rattle.dv_words.specs.Unwinding.{is_opening as is_opened};
ghost use Rattle.dv_throw.specs.Unwound.{below_opening};

use dv_defs::{ClassId, Image};
use dv_frames::{Stack, Top};
use dv_ops::{Method, method_at};

/// Drops the record on top. Where it is the one that the opening made, thread 0's first frame, which has run nothing, is dropped with it.
pub fn drop_record(image: &Image, stack: &mut Stack, thread: u32, class: ClassId)
    ensures { stack.new ≡ with_levels stack.old (below_opening image.now thread class.0 (below stack.old.levels)) }
{
    stack.pop();
    if is_opening(image, stack, thread, class) {
        stack.pop();
    }
}

/// Whether thread 0's first frame is all that there is, in a method of the class.
fn is_opening(image: &Image, stack: &Stack, thread: u32, class: ClassId) -> bool
    ensures { result ≡ is_opened image.now thread class.0 stack.now.levels }
{
    match stack.top() {
        Some(Top::Code { method, .. }) => {
            stack.levels() == 1 && is_method_of(method_at(image, method), thread, class)
        }
        _ => false,
    }
}

/// Whether the thread is thread 0 and the class declares the method.
fn is_method_of(method: Option<Method<'_>>, thread: u32, class: ClassId) -> bool
    ensures { result ≡ is_of thread class.0 (option_map method_of method.entry) }
{
    match method {
        Some(method) => thread == 0 && method.info.class == class,
        None => false,
    }
}
