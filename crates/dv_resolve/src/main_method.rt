// The main method of a class.
ghost use Rattle.std.specs.Prelude.{◌≡◌, ◌<◌, ◌^◌, ℕ, length, slice_get, option_map, Some};
ghost use Rattle.dv_defs.specs.Common.{array_of};
ghost use Rattle.dv_defs.specs.Linked.{is_main_with, main_found, main_of as main_in};
ghost use Rattle.dv_defs.specs.Names.{string_name};
ghost use Rattle.dv_defs.specs.Pools.{class_named, declared_by, methods_of as methods_in, with_info};
ghost use Rattle.dv_defs.specs.Types.{of_class, same_proto, same_types, ty_eq};
ghost use Rattle.dv_resolve.specs.Answers.{Answers, numbered_main};
ghost use Rattle.dv_resolve.specs.Ids.{method_id};
ghost use Rattle.dv_resolve.specs.Mains.{is_main_def, is_of, main_or_none, proto_of, test_of};

use dv_defs::{
    Base, Flag, Image, LinkError, LinkKind, MethodDef, MethodId, MethodInfo, Proto, Text, Ty,
};
use dv_hier::error_of;
use std::alloc::Global;

const MAIN: &[u8] = b"main";

const STRING: &[u8] = b"Ljava/lang/String;";

/// What a main method takes.
#[derive(Clone, Copy)]
pub enum MainForm {
    /// An array of strings.
    Arguments,
    /// Nothing.
    Bare,
}

/// The main method that the class of this descriptor declares itself: `main([Ljava/lang/String;)V`, or else `main()V`, static and with
/// a body.
pub fn find_main(alloc: Global, image: &Image, name: &[u8]) -> Result<MethodId, LinkError>
    ensures { Answers (numbered_main (main_found image.now name.now)) result }
{
    let name = Text::of(Vec::from_slice(alloc, name)?)?;
    main_named(image, &name)
}

fn main_named(image: &Image, name: &Text) -> Result<MethodId, LinkError>
    ensures { Answers (numbered_main (main_found image.now name.now)) result }
{
    match class_of(image, name) {
        Some(class) => main_of_class(image, class, name),
        None => Err(error_of(name, LinkKind::NoClass(name.clone()?))),
    }
}

fn main_of_class(image: &Image, class: usize, name: &Text) -> Result<MethodId, LinkError>
    ensures { Answers (numbered_main (main_or_none name.now (main_in image.now class))) result }
{
    match main_of(image, class) {
        Some(method) => Ok(method),
        None => Err(error_of(name, LinkKind::NoMain)),
    }
}

/// The place of the class of this descriptor.
fn class_of(image: &Image, name: &Text) -> Option<usize>
    ensures { result ≡ class_named image.now name.now }
{
    image.index.names.place_of(name)
}

/// The main method of a class: the form with arguments is preferred.
fn main_of(image: &Image, class: usize) -> Option<MethodId>
    ensures { result ≡ option_map method_id (main_in image.now class) }
{
    match first_main(image, class, MainForm::Arguments) {
        Some(method) => Some(method),
        None => first_main(image, class, MainForm::Bare),
    }
}

/// The first method of a class that is a main method of a form.
fn first_main(image: &Image, class: usize, form: MainForm) -> Option<MethodId>
    ensures { result ≡ option_map method_id (declared_by image.now class (is_main_with (proto_of form))) }
{
    let methods = methods_of(image);
    for id in 0..methods.len() {
        if is_main_of(image, class, &methods[id], form) {
            return Some(MethodId(id as u32));
        }
    }
    None
}

fn methods_of(image: &Image) -> &[MethodInfo]
    ensures methods { result.now ≡ image.now.methods }
    ensures few { length result.now < 2 ^ 32 }
{
    image.methods.items()
}

/// Whether a method is one of this class and a main method of a form.
fn is_main_of(image: &Image, class: usize, method: &MethodInfo, form: MainForm) -> bool
    ensures { (id : ℕ) → result ≡ is_of (test_of class form) (with_info image.now id (Some method.now)) }
{
    match definition_of(image, method) {
        Some(def) => method.class.0 as usize == class && is_main(def, form),
        None => false,
    }
}

/// A method as its class declares it.
fn definition_of<'a>(image: &'a Image, method: &MethodInfo) -> Option<&'a MethodDef>
    ensures { option_map (λ d. d.now) result ≡ slice_get (methods_in (slice_get image.now.classes method.now.class.0)) method.now.place }
{
    let class = image.classes.items().get(method.class.0 as usize)?;
    class.def.methods.items().get(method.place as usize)
}

/// Whether a method is static, called main, of this form, and has a body.
fn is_main(method: &MethodDef, form: MainForm) -> bool
    ensures { result ≡ is_main_def (proto_of form) method.now }
{
    Flag::Static.is_in(method.flags)
        && method.name.bytes() == MAIN
        && has_form(&method.proto, form)
        && method.body.is_some()
}

fn has_form(proto: &Proto, form: MainForm) -> bool
    ensures { result ≡ same_proto proto.now (proto_of form) }
{
    has_parameters(proto.params.items(), form) && proto.ret.is_none()
}

fn has_parameters(params: &[Ty], form: MainForm) -> bool
    ensures { result ≡ same_types params.now (proto_of form).params }
{
    match (form, params) {
        (MainForm::Arguments, [ty]) => is_strings(ty),
        (MainForm::Bare, []) => true,
        _ => false,
    }
}

/// Whether the type is an array of strings.
fn is_strings(ty: &Ty) -> bool
    ensures { result ≡ ty_eq ty.now (array_of (of_class string_name)) }
{
    match &ty.base {
        Base::Class(name) => ty.dims == 1 && name.bytes() == STRING,
        _ => false,
    }
}
