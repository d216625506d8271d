// The methods that initialise classes (JLS 12.4), and where a class's methods begin.
ghost use Rattle.std.specs.Prelude.{◌≡◌, ◌<◌, ◌≤◌, ◌^◌, length, option_map};
ghost use Rattle.std.specs.List.Sorted.{IsNonDecreasingBy};
ghost use Rattle.dv_defs.specs.Linked.{IsImage};
ghost use Rattle.dv_defs.specs.Pools.{initialiser as initialiser_of, no_arguments};
ghost use Rattle.dv_defs.specs.Types.{same_proto};
ghost use Rattle.dv_ops.specs.Meaning.{method_of};
ghost use Rattle.dv_clinit.specs.Initialisers.{BeginsAt, declaring_class, initialiser_at as initialiser_numbered, is_initialiser_def};

use dv_defs::{ClassId, Flag, Image, MethodDef, MethodId, MethodInfo, Proto};
use dv_ops::{Method, method_at};

const CLINIT: &[u8] = b"<clinit>";

/// The method that initialises a class, where it declares one: static, `<clinit>()V`, with a body (JLS 12.4, JVMS 2.9.2).
pub fn initialiser(image: &Image, class: ClassId) -> Option<Method<'_>>
    ensures { option_map method_of result ≡ initialiser_of image.now class.0 }
{
    let methods = methods_of(image);
    for id in first_method(methods, class)..methods.len() {
        if methods[id].class != class {
            return None;
        }
        if let Some(method) = initialiser_at(image, MethodId(id as u32)) {
            return Some(method);
        }
    }
    None
}

/// All methods of an image, class by class.
pub(crate) fn methods_of(image: &Image) -> &[MethodInfo]
    ensures methods { result.now ≡ image.now.methods }
    ensures few { length result.now < 2 ^ 32 }
    ensures by_class { IsNonDecreasingBy declaring_class result.now }
    ensures linked { IsImage image.now }
{
    image.methods.items()
}

/// Where the methods of a class begin, among methods that stand class by class.
fn first_method(methods: &[MethodInfo], class: ClassId) -> usize
    requires { IsNonDecreasingBy declaring_class methods.now }
    ensures within { result ≤ length methods.now }
    ensures begins { BeginsAt methods.now class.0 result }
{
    methods.partition_point(|method| method.class.0 < class.0)
}

/// The method of a number, where it initialises its class.
pub(crate) fn initialiser_at(image: &Image, id: MethodId) -> Option<Method<'_>>
    ensures { option_map method_of result ≡ initialiser_numbered image.now id.0 }
{
    match method_at(image, id) {
        Some(method) if is_initialiser(method.def) => Some(method),
        _ => None,
    }
}

fn is_initialiser(method: &MethodDef) -> bool
    ensures { result ≡ is_initialiser_def method.now }
{
    Flag::Static.is_in(method.flags)
        && method.name.bytes() == CLINIT
        && is_bare(&method.proto)
        && method.body.is_some()
}

/// Whether nothing is taken and nothing returned.
fn is_bare(proto: &Proto) -> bool
    ensures { result ≡ same_proto proto.now no_arguments }
{
    proto.params.is_empty() && proto.ret.is_none()
}
