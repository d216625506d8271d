// The state in which a run begins.
ghost use Rattle.std.specs.Prelude.{◌≡◌, ◌<◌, ◌≤◌, Some, None, bytes_eq, false, not, length, IfOk, OnOk};
ghost use Rattle.std.specs.Option.{option_to_list};
ghost use Rattle.dv_defs.specs.declared.run.Limits as runs;
ghost use Rattle.dv_machine.specs.Classes.{state_at};
ghost use Rattle.dv_defs.specs.Names.{stream_name, thread_name};
ghost use Rattle.dv_defs.specs.Pools as pools;
ghost use Rattle.dv_machine.specs.Calls.{registers_in};
ghost use Rattle.dv_machine.specs.Opening as tagged;
ghost use Rattle.dv_machine.specs.Opening.{opening_states, string_of};
ghost use Rattle.dv_machine.specs.Mains.{IsMain};
ghost use Rattle.dv_machine.specs.Unwinding as unwinding;
ghost use Rattle.dv_ops.specs.Meaning.{field_of, method_of};
ghost use Rattle.dv_words.specs.declared.state.Level.TheVariants as level;
ghost use Rattle.dv_words.specs.Heaps as heaps;
ghost use Rattle.dv_words.specs.Heaps.{counting, newest, with_static};
ghost use Rattle.dv_words.specs.Stacks.{empty};
ghost use Rattle.dv_words.specs.Calls.{entered_frame};
ghost use Rattle.dv_words.specs.Opening.{array_made, main_args, main_heap, object_made, opening, preallocated_on, with_out, with_out_of, with_out_of_memory, with_stack_overflow, with_string, with_string_of, with_strings};
ghost use Rattle.dv_core.specs.Guests.{IsOrdered};
ghost use Rattle.dv_core.specs.Machines.{machine_of, machine_with};
ghost use Rattle.dv_core.specs.Openings.{HasMainRoom, HasNone, IsAlone, IsIdle, TakesStrings, is_fresh, opening_stack, with_level};

use crate::guest::Guest;
use crate::vm::Vm;
use dv_clinit::{ClassStates, State};
use dv_defs::{
    Chars, ClassId, End, FieldId, Image, Init, Limits, MethodDef, MethodId, Preallocated,
};
use dv_frames::Stack;
use dv_heap::Heap;
use dv_image::boot_class;
use dv_monitor::Monitors;
use dv_ops::{Field, Method, field_at, method_at};
use dv_threads::Threads;
use std::alloc::{AllocError, Global};

const STREAM: &[u8] = b"Ljava/io/PrintStream;";

const THREAD: &[u8] = b"Ljava/lang/Thread;";

const OUT_OF_MEMORY: &[u8] = b"Ljava/lang/OutOfMemoryError;";

const STACK_OVERFLOW: &[u8] = b"Ljava/lang/StackOverflowError;";

const SYSTEM: &[u8] = b"Ljava/lang/System;";

const OUT: &[u8] = b"out";

/// The object that System.out holds.
const STREAM_OBJECT: u32 = 1;

/// The Thread object of thread 0.
const THREAD_OBJECT: u32 = 2;

/// What a run without a main method has, which makes nothing.
const NOTHING_MADE: Preallocated = Preallocated {
    out_of_memory: 0,
    stack_overflow: 0,
};

/// The number of a boot class by its descriptor, 0 where there is none.
fn number_named(image: &Image, name: &[u8]) -> ClassId
    ensures { result.0 ≡ unwinding.number_named image.now name.now }
{
    match boot_class(image, name) {
        Some(place) => class_id(image, place),
        None => ClassId(0),
    }
}

/// The class at a place.
fn class_id(image: &Image, place: usize) -> ClassId
    requires { place < length image.now.classes }
    ensures { result.0 ≡ place }
{
    let _classes = &image.classes;
    ClassId(place as u32)
}

/// The field at a place.
fn field_id(image: &Image, place: usize) -> FieldId
    requires { place < length image.now.fields }
    ensures { result.0 ≡ place }
{
    let _fields = &image.fields;
    FieldId(place as u32)
}

/// Makes an object of the class of a name; gives its number. A heap that isn't counted is never full.
fn make_object(image: &Image, heap: &mut Heap, name: &[u8]) -> Result<u32, AllocError>
    ensures heap { OnOk result (heap.old.limit ≡ None → heap.new ≡ object_made image.now heap.old name.now) }
    ensures number { IfOk result (λ object. object ≡ newest heap.new) }
{
    match heap.alloc_object(image, number_named(image, name)) {
        Ok(object) => Ok(object),
        Err(_) => Err(AllocError),
    }
}

/// Makes the object of System.out, and that of thread 0. A heap that isn't counted is never full.
fn make_first_objects(image: &Image, heap: &mut Heap) -> Result<(), AllocError>
    ensures { OnOk result (heap.old.limit ≡ None → heap.new ≡ object_made image.now (object_made image.now heap.old stream_name) thread_name) }
{
    make_object(image, heap, STREAM)?;
    make_object(image, heap, THREAD)?;
    Ok(())
}

/// Whether a class has this name.
fn is_named(image: &Image, class: ClassId, name: &[u8]) -> bool
    ensures { result ≡ bytes_eq (pools.name_at image.now class.0) name.now }
{
    match image.classes.items().get(class.0 as usize) {
        Some(info) => info.def.name.bytes() == name,
        None => name.is_empty(),
    }
}

/// Whether a field is System.out.
fn is_out(image: &Image, field: &Field<'_>) -> bool
    ensures { result ≡ tagged.is_out image.now (field_of field.now) }
{
    let def = field.def;
    is_named(image, field.info.class, SYSTEM) && def.name.bytes() == OUT
}

/// Writes the first word of a static field, where it has one.
fn set_static(heap: &mut Heap, field: FieldId, word: u32)
    ensures { heap.new ≡ with_static heap.old field.0 0 word }
{
    if heap.static_size(field) > 0 {
        heap.static_put(field, 0, word);
    }
}

/// System.out holds its object, where this is the field.
fn set_out_of(image: &Image, heap: &mut Heap, id: FieldId)
    ensures { heap.new ≡ with_out_of image.now heap.old id.0 (pools.field_at image.now id.0) }
{
    let Some(field) = field_at(image, id) else {
        return;
    };
    if is_out(image, &field) {
        set_static(heap, id, STREAM_OBJECT);
    }
}

/// System.out holds its object.
fn set_out(image: &Image, heap: &mut Heap)
    ensures { heap.new ≡ with_out image.now image.now.fields 0 heap.old }
{
    for place in 0..image.fields.len() {
        set_out_of(image, heap, field_id(image, place));
    }
}

/// Interns a string. A heap that isn't counted is never full.
fn intern(heap: &mut Heap, text: &Chars) -> Result<u32, AllocError>
    ensures { IfOk result (λ o. heaps.intern heap.old text.now ≡ Some (record { object = o; heap = heap.new })) }
{
    match heap.intern(text) {
        Ok(object) => Ok(object),
        Err(_) => Err(AllocError),
    }
}

/// A static field holds the string that it is declared with, where it is.
fn set_string(heap: &mut Heap, id: FieldId, init: &Init) -> Result<(), AllocError>
    ensures { OnOk result (heap.new ≡ with_string heap.old id.0 (string_of init.now)) }
{
    if let Init::Str(text) = init {
        let object = intern(heap, text)?;
        set_static(heap, id, object);
    }
    Ok(())
}

/// The same of the field of a number.
fn set_string_of(image: &Image, heap: &mut Heap, id: FieldId) -> Result<(), AllocError>
    ensures { OnOk result (heap.new ≡ with_string_of heap.old id.0 (pools.field_at image.now id.0)) }
{
    let Some(field) = field_at(image, id) else {
        return Ok(());
    };
    let def = field.def;
    set_string(heap, id, &def.init)
}

/// The strings of static fields, by class and field.
fn set_strings(image: &Image, heap: &mut Heap) -> Result<(), AllocError>
    ensures { OnOk result (heap.new ≡ with_strings image.now image.now.fields 0 heap.old) }
{
    for place in 0..image.fields.len() {
        set_string_of(image, heap, field_id(image, place))?;
    }
    Ok(())
}

/// Main's array, where it takes one, without elements. A heap that isn't counted is never full.
fn make_array(heap: &mut Heap, main: &Method<'_>) -> Result<Option<u32>, AllocError>
    ensures heap { OnOk result (heap.old.limit ≡ None → TakesStrings (method_of main.now) → heap.new ≡ array_made (method_of main.now) heap.old) }
    ensures args { IfOk result (λ array. option_to_list array ≡ main_args (method_of main.now) heap.new) }
{
    let def = main.def;
    let Some(ty) = def.proto.params.items().first() else {
        return Ok(None);
    };
    match heap.alloc_array(ty, 0) {
        Ok(array) => Ok(Some(array)),
        Err(_) => Err(AllocError),
    }
}

/// Fills a heap without objects as a run begins; gives main's array, where it takes one.
fn fill_heap(image: &Image, heap: &mut Heap, main: &Method<'_>) -> Result<Option<u32>, AllocError>
    ensures heap { OnOk result (heap.old ≡ heaps.uncounted image.now → TakesStrings (method_of main.now) → heap.new ≡ main_heap image.now (method_of main.now)) }
    ensures args { IfOk result (λ array. option_to_list array ≡ main_args (method_of main.now) heap.new) }
{
    make_first_objects(image, heap)?;
    set_out(image, heap);
    set_strings(image, heap)?;
    make_array(heap, main)
}

/// Makes the exceptions that fly where words or a level's room are lacking; and from here on words are counted.
fn preallocate(image: &Image, heap: &mut Heap, limit: u32) -> Result<Preallocated, AllocError>
    ensures heap { OnOk result (heap.old.limit ≡ None → heap.new ≡ counting (with_stack_overflow image.now (with_out_of_memory image.now heap.old)) limit) }
    ensures numbers { IfOk result (λ made. heap.old.limit ≡ None → made ≡ preallocated_on image.now heap.old) }
{
    let out_of_memory = make_object(image, heap, OUT_OF_MEMORY)?;
    let stack_overflow = make_object(image, heap, STACK_OVERFLOW)?;
    heap.count(limit);
    Ok(Preallocated {
        out_of_memory,
        stack_overflow,
    })
}

/// Thread 0 begins to initialise main's class, where that isn't born initialised; whether it is.
fn begin_class(classes: &mut ClassStates, main: &Method<'_>) -> bool
    ensures states { classes.new ≡ opening_states (method_of main.now) classes.old result }
    ensures born { result ≡ not (is_fresh (state_at classes.old main.now.info.now.class.0)) }
{
    let info = main.info;
    let class = info.class;
    match classes.state(class) {
        State::Fresh => {
            classes.begin(class, 0);
            false
        }
        _ => true,
    }
}

/// How many registers a method has, none where it has no body.
fn registers_of(def: &MethodDef) -> u16
    ensures registers { result ≡ registers_in def.now.body }
    ensures few { result ≤ 256 }
{
    match &def.body {
        Some(body) => body.registers,
        None => 0,
    }
}

/// Pushes main's frame, where there is room.
fn push_main(stack: &mut Stack, main: &Method<'_>, array: Option<u32>)
    ensures few { registers_in main.now.def.now.body ≤ 256 }
    ensures pushed { stack.new ≡ with_level stack.old (level.Code (entered_frame (method_of main.now) (option_to_list array))) }
{
    let registers = registers_of(main.def);
    let _ = match array {
        Some(array) => stack.push(main.id, registers, &[array]),
        None => stack.push(main.id, registers, &[]),
    };
}

/// Pushes the record of a class, where there is room.
fn push_class(stack: &mut Stack, class: ClassId)
    ensures { stack.new ≡ with_level stack.old (level.Init class false) }
{
    let _ = stack.push_record(class);
}

/// Pushes main's frame, and above it the record of its class, where that isn't born initialised.
fn push_levels(stack: &mut Stack, main: &Method<'_>, array: Option<u32>, born: bool)
    ensures few { registers_in main.now.def.now.body ≤ 256 }
    ensures pushed { (limits : runs.Limits) → stack.old ≡ empty limits.levels limits.words → stack.new ≡ opening_stack limits (method_of main.now) (option_to_list array) born }
{
    push_main(stack, main, array);
    if !born {
        let info = main.info;
        push_class(stack, info.class);
    }
}

/// Thread 0's stack: main's frame, and above it the record of its class, where that isn't born initialised.
fn main_stack(
    alloc: Global,
    limits: &Limits,
    main: &Method<'_>,
    array: Option<u32>,
    born: bool,
) -> Result<Stack, AllocError>
    ensures few { OnOk result (registers_in main.now.def.now.body ≤ 256) }
    ensures stack { IfOk result (λ stack. stack ≡ opening_stack limits.now (method_of main.now) (option_to_list array) born) }
{
    let mut stack = Stack::new(alloc, limits.levels, limits.words)?;
    push_levels(&mut stack, main, array, born);
    Ok(stack)
}

/// No threads.
fn no_threads(alloc: Global) -> Threads
    ensures { HasNone result }
{
    Threads {
        stacks: Vec::new(alloc),
        ends: Vec::new(alloc),
        objects: Vec::new(alloc),
        monitors: Monitors::new(alloc),
    }
}

/// Adds the first thread, which lives.
fn add_thread(threads: &mut Threads, stack: Stack, object: u32) -> Result<(), AllocError>
    ensures { OnOk result (HasNone threads.old → IsAlone threads.new stack object) }
{
    if let Err(failed) = threads.stacks.push(stack) {
        drop(failed);
        return Err(AllocError);
    }
    threads.ends.push(End::Living)?;
    threads.objects.push(object)?;
    Ok(())
}

/// What steps change, before anything is done: no threads, no objects, and nothing printed.
fn idle_guest(alloc: Global, image: &Image) -> Result<Guest, AllocError>
    ensures { IfOk result (λ g. IsIdle image.now g) }
{
    let classes = ClassStates::new(alloc, image)?;
    let heap = Heap::uncounted(alloc, image)?;
    Ok(Guest {
        threads: no_threads(alloc),
        heap,
        classes,
        output: Vec::new(alloc),
    })
}

/// Begins a run of a main method; gives the exceptions that are made for it.
fn begin_main(
    alloc: Global,
    image: &Image,
    guest: &mut Guest,
    main: &Method<'_>,
    limits: &Limits,
) -> Result<Preallocated, AllocError>
    ensures opened { IfOk result (λ made. IsIdle image.now guest.old → pools.method_at image.now main.now.id.0 ≡ Some (method_of main.now) → TakesStrings (method_of main.now) → HasMainRoom limits.now →
        machine_with guest.new 0 None limits.now made ≡ opening image.now (method_of main.now) limits.now) }
    ensures ordered { OnOk result (IsIdle image.now guest.old → IsOrdered limits.now guest.new) }
{
    let array = fill_heap(image, &mut guest.heap, main)?;
    let made = preallocate(image, &mut guest.heap, limits.heap)?;
    let born = begin_class(&mut guest.classes, main);
    let stack = main_stack(alloc, limits, main, array, born)?;
    add_thread(&mut guest.threads, stack, THREAD_OBJECT)?;
    Ok(made)
}

/// Begins a run of the method of a number; gives the exceptions that are made for it. No thread is there where there is no such method.
#[tactic(auto, using(crate::proofs::Opened::opens, crate::proofs::Opened::none_opens))]
fn begin(
    alloc: Global,
    image: &Image,
    guest: &mut Guest,
    main: MethodId,
    limits: &Limits,
) -> Result<Preallocated, AllocError>
    ensures opened { IfOk result (λ made. (m : pools.Method) → IsIdle image.now guest.old → m.id ≡ main.0 → IsMain image.now m → HasMainRoom limits.now →
        machine_with guest.new 0 None limits.now made ≡ opening image.now m limits.now) }
    ensures ordered { OnOk result (IsIdle image.now guest.old → IsOrdered limits.now guest.new) }
{
    let Some(main) = method_at(image, main) else {
        guest.heap.count(limits.heap);
        return Ok(NOTHING_MADE);
    };
    begin_main(alloc, image, guest, &main, limits)
}

impl Vm {
    /// A run of a main method, as it begins: thread 0 is at the method, or at the initialisation of its class (JLS 12.1.3, 12.1.4). The
    /// run has no thread where no method has the number.
    ///
    /// # Errors
    ///
    /// Want of memory.
    pub fn open(
        alloc: Global,
        image: &Image,
        main: MethodId,
        limits: Limits,
    ) -> Result<Vm, AllocError>
        ensures opened { IfOk result (λ v. (m : pools.Method) → m.id ≡ main.0 → IsMain image.now m → HasMainRoom limits → machine_of v ≡ opening image.now m limits) }
        ensures ordered { IfOk result (λ v. IsOrdered limits v.guest) }
    {
        let mut guest = idle_guest(alloc, image)?;
        match begin(alloc, image, &mut guest, main, &limits) {
            Ok(preallocated) => Ok(Vm {
                guest,
                steps: 0,
                stop: None,
                limits,
                preallocated,
            }),
            Err(error) => {
                drop(guest);
                Err(error)
            }
        }
    }
}
