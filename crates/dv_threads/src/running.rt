// The method with which a thread begins.
ghost use Rattle.std.specs.Prelude.{◌≡◌, ◌≤◌, ◌&&◌, ℕ, IfNone, IfSome, bytes_eq, codes, false, true};
ghost use Rattle.dv_defs.specs.Pools.{no_arguments};
ghost use Rattle.dv_defs.specs.Selecting.{selected};
ghost use Rattle.dv_defs.specs.Types.{same_proto};
ghost use Rattle.dv_machine.specs.Calls.{landing as machine_landing, registers_in};
ghost use Rattle.dv_machine.specs.Threads as machine;
ghost use Rattle.dv_words.specs.Heaps.{kind_of};
ghost use Rattle.dv_words.specs.Threads.{class_of_kind};
ghost use Rattle.dv_threads.specs.Starting.{is_run_at, landed};

use dv_defs::{ClassId, Image, MethodDef, MethodId, Named, Proto, Select};
use dv_heap::Heap;
use dv_image::select;
use dv_objects::class_of_object;
use dv_ops::{Method, method_at};

const RUN: &[u8] = b"run";

/// Whether the method of a number is run()V by its name and prototype.
fn is_run(image: &Image, id: MethodId) -> bool
    ensures { result ≡ is_run_at image.now id.0 }
{
    match method_at(image, id) {
        Some(method) => has_run_key(method.def),
        None => false,
    }
}

fn has_run_key(def: &MethodDef) -> bool
    ensures { result ≡ bytes_eq def.now.name (codes "run") && same_proto def.now.proto no_arguments }
{
    def.name.bytes() == RUN && is_bare(&def.proto)
}

/// Whether nothing is taken and nothing returned.
fn is_bare(proto: &Proto) -> bool
    ensures { result ≡ same_proto proto.now no_arguments }
{
    proto.params.is_empty() && proto.ret.is_none()
}

/// The number of the image's first run()V. The methods of the boot classes, of which Thread is one, stand first.
fn run_number(image: &Image) -> Option<MethodId>
    ensures found { IfSome result (λ id. is_run_at image.now id.0 ≡ true) }
    ensures missing { IfNone result ((n : ℕ) → is_run_at image.now n ≡ false) }
{
    for i in 0..image.methods.len() {
        let id = MethodId(i as u32);
        if is_run(image, id) {
            return Some(id);
        }
    }
    None
}

/// What a call of run()V selects on an object of a class.
fn select_run(image: &Image, class: usize) -> Select
    ensures { result ≡ selected image.now class (codes "run") no_arguments }
{
    if class >= image.classes.len() {
        return Select::Abstract;
    }
    match run_number(image) {
        Some(run) => select(image, ClassId(class as u32), run),
        None => Select::Abstract,
    }
}

/// The method that was selected, or what is thrown in its place (JVMS 6.5, "invokevirtual" and "invokeinterface").
fn landing(image: &Image, selected: Select) -> Result<Method<'_>, Named>
    ensures { landed result ≡ machine_landing image.now selected }
{
    match selected {
        Select::Found(id) => match method_at(image, id) {
            Some(method) => Ok(method),
            None => Err(Named::AbstractMethod),
        },
        Select::Abstract => Err(Named::AbstractMethod),
        Select::Clash => Err(Named::ClassChange),
    }
}

/// The run()V that an object's class selects (JLS 15.12.4.4), or what is thrown in its place.
pub fn run_landing<'a>(image: &'a Image, heap: &Heap, object: u32) -> Result<Method<'a>, Named>
    ensures { landed result ≡ machine.run_landing image.now (class_of_kind image.now (kind_of heap.now object)) }
{
    match class_of_object(image, heap, object) {
        Some(class) => landing(image, select_run(image, class)),
        None => Err(Named::AbstractMethod),
    }
}

/// How many registers a method has, none where it has no body.
pub fn registers_of(def: &MethodDef) -> u16
    ensures registers { result ≡ registers_in def.now.body }
    ensures few { result ≤ 256 }
{
    match &def.body {
        Some(body) => body.registers,
        None => 0,
    }
}
