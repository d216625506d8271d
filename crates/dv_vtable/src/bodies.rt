// Methods that have a body where they may not, or none where they must.
ghost use Rattle.std.specs.Prelude.{◌≡◌, option_map};
ghost use Rattle.dv_defs.specs.First.{first_in};
ghost use Rattle.dv_defs.specs.LinkFaults.{Checks, body_wrong, found, wrong_body, wrong_constructor, wrong_native};

use crate::keys::INIT;
use dv_defs::{ClassDef, Flag, LinkError, LinkKind, MethodDef};
use dv_hier::error_of;

/// The first method of a class whose body is wrong. `place` is the number of the class, and the first `boot` classes are the boot
/// classes.
pub fn check_bodies(boot: u32, place: usize, class: &ClassDef) -> Result<(), LinkError>
    ensures { Checks result (option_map (found class.now.name) (first_in (body_wrong boot place class.now) class.now.methods)) }
{
    for method in class.methods.items() {
        check_body(boot, place, class, method)?;
    }
    Ok(())
}

fn check_body(
    boot: u32,
    place: usize,
    class: &ClassDef,
    method: &MethodDef,
) -> Result<(), LinkError>
    ensures { Checks result (option_map (found class.now.name) (body_wrong boot place class.now method.now)) }
{
    if has_wrong_body(method)
        || is_wrong_native(boot, place, method)
        || is_wrong_constructor(class, method)
    {
        return Err(error_of(&class.name, LinkKind::Body(method.name.clone()?)));
    }
    Ok(())
}

/// Whether an abstract or a native method has a body, or another one has none.
fn has_wrong_body(method: &MethodDef) -> bool
    ensures { result ≡ wrong_body method.now }
{
    if Flag::Abstract.is_in(method.flags) || Flag::Native.is_in(method.flags) {
        method.body.is_some()
    } else {
        method.body.is_none()
    }
}

/// Whether a class of the program declares a native method.
fn is_wrong_native(boot: u32, place: usize, method: &MethodDef) -> bool
    ensures { result ≡ wrong_native boot place method.now }
{
    Flag::Native.is_in(method.flags) && place >= boot as usize
}

/// Whether an interface declares a constructor.
fn is_wrong_constructor(class: &ClassDef, method: &MethodDef) -> bool
    ensures { result ≡ wrong_constructor class.now method.now }
{
    Flag::Interface.is_in(class.flags)
        && !Flag::Static.is_in(method.flags)
        && method.name.bytes() == INIT
}
