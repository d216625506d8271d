// The states of classes as a run begins, in time linear in the classes, their methods and what is initialised before each.
ghost use Rattle.std.specs.Prelude.{◌≡◌, ◌<◌, true, length, map, IfOk};
ghost use Rattle.std.specs.Bool.{MatchBool};
ghost use Rattle.dv_defs.specs.Prior.{prior_at};
ghost use Rattle.dv_machine.specs.Classes.{Fresh};
ghost use Rattle.dv_machine.specs.Opening.{first_states as opening_states, none_initialised};
ghost use Rattle.dv_clinit.specs.Births.{AreKnown, BeginsAsParent, DeclaresNone, IsKnown, IsWrittenUp, first_state};
ghost use Rattle.dv_clinit.specs.States.{class_state, class_states};

use crate::State;
use crate::methods::{initialiser_at, methods_of};
use crate::prior::prior_to;
use dv_defs::{Image, MethodId};
use dv_image::{has_interface_flag, parent_of};
use std::alloc::{AllocError, Global};

/// By class, the state in which it begins.
pub(crate) fn first_states(alloc: Global, image: &Image) -> Result<Vec<State>, AllocError>
    ensures { IfOk result (λ v. class_states v.items ≡ opening_states image.now image.now.classes 0) }
{
    let mut known = with_initialisers(alloc, image)?;
    note_interfaces(image, &mut known);
    let mut states = Vec::with_capacity(alloc, known.len())?;
    for class in 0..known.len() {
        let state = state_of(image, &known, class);
        write_up(image, &mut known, class, state);
        states.push(state)?;
    }
    Ok(states)
}

/// What is known of the classes at first: those that declare an initialiser are fresh.
fn with_initialisers(alloc: Global, image: &Image) -> Result<Vec<Option<State>>, AllocError>
    ensures { IfOk result (λ v. AreKnown image.now (DeclaresNone image.now) v.items) }
{
    let mut known = vec![in alloc; None; image.classes.len()]?;
    let methods = methods_of(image);
    for id in 0..methods.len() {
        if let Some(method) = initialiser_at(image, MethodId(id as u32)) {
            known[method.info.class.0 as usize] = Some(State::Fresh);
        }
    }
    Ok(known)
}

/// Notes of the classes that declare no initialiser what their superclasses have no part in.
fn note_interfaces(image: &Image, known: &mut [Option<State>])
    requires { AreKnown image.now (DeclaresNone image.now) known.old }
    ensures { AreKnown image.now (BeginsAsParent image.now) known.new }
{
    for class in 0..known.len() {
        if known[class].is_none() {
            known[class] = state_by_interfaces(image, known, class);
        }
    }
}

/// What is known of a class that declares no initialiser. Before an interface nothing is initialised, so it is ready. A class is fresh where
/// one that is initialised before it is known to be so; else no interface among these declares an initialiser, and the superclass decides.
fn state_by_interfaces(image: &Image, known: &[Option<State>], class: usize) -> Option<State>
    requires within { class < length known.now }
    requires known { AreKnown image.now (DeclaresNone image.now) known.now }
    requires none { DeclaresNone image.now class }
    ensures { IsKnown image.now (BeginsAsParent image.now) class result }
{
    if has_interface_flag(image, class) {
        return Some(State::Ready);
    }
    if is_fresh_before(image, known, class) {
        return Some(State::Fresh);
    }
    None
}

/// Whether one of the classes that are initialised before a class is known to be fresh.
fn is_fresh_before(image: &Image, known: &[Option<State>], class: usize) -> bool
    requires within { class < length known.now }
    requires known { AreKnown image.now (DeclaresNone image.now) known.now }
    ensures { MatchBool result (first_state image.now class ≡ Fresh) (none_initialised image.now (prior_at image.now class) ≡ true) }
{
    for prior in prior_to(image, class) {
        if known[prior.0 as usize] == Some(State::Fresh) {
            return true;
        }
    }
    false
}

/// The state of a class. Nothing is known only of classes that begin as their superclasses do, so a class stands as the nearest one above it that
/// something is known of, and is ready where there is none.
fn state_of(image: &Image, known: &[Option<State>], class: usize) -> State
    requires within { class < length known.now }
    requires known { AreKnown image.now (BeginsAsParent image.now) known.now }
    ensures { class_state result ≡ first_state image.now class }
{
    let mut at = class;
    loop {
        if let Some(state) = known[at] {
            return state;
        }
        match parent_of(image, at) {
            Some(above) => at = above,
            None => return State::Ready,
        }
    }
}

/// Writes the state of a class down for it and for those above it, up to the first one that something is known of.
fn write_up(image: &Image, known: &mut [Option<State>], class: usize, state: State)
    requires within { class < length known.old }
    requires known { AreKnown image.now (BeginsAsParent image.now) known.old }
    requires state { class_state state ≡ first_state image.now class }
    ensures known { AreKnown image.now (BeginsAsParent image.now) known.new }
    ensures written { IsWrittenUp image.now known.old known.new class }
{
    let mut at = class;
    while known[at].is_none() {
        known[at] = Some(state);
        match parent_of(image, at) {
            Some(above) => at = above,
            None => return,
        }
    }
}
