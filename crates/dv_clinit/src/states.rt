// The states of classes (JLS 12.4.2).
ghost use Rattle.std.specs.Prelude.{◌≡◌, IfOk};
ghost use Rattle.dv_machine.specs.Classes.{Erroneous, InProgress, Ready, ask_of, asked, state_at, with_state};
ghost use Rattle.dv_machine.specs.Opening.{first_states as opening_states};
ghost use Rattle.dv_clinit.specs.States.{class_state};

use crate::births::first_states;
use dv_defs::{Ask, ClassId, Image};
use std::alloc::{AllocError, Global};
use std::marker::Model;

/// How far a class is initialised.
#[derive(Clone, Copy, PartialEq, Eq, Debug)]
pub enum State {
    /// Nobody has begun.
    Fresh,
    /// The thread of this number is at it.
    InProgress(u32),
    Ready,
    /// Its initialiser, or one that runs before it, ended by an exception.
    Erroneous,
}

impl State {
    /// What a thread does that needs a class in this state.
    fn asked_by(self, thread: u32) -> Ask
        ensures { result ≡ asked thread (class_state self) }
    {
        match self {
            State::Fresh => Ask::Begin,
            State::InProgress(owner) if owner == thread => Ask::Go,
            State::InProgress(owner) => Ask::Wait(owner),
            State::Ready => Ask::Go,
            State::Erroneous => Ask::Bad,
        }
    }
}

/// The state of each class of an image. What isn't a class's number is fresh for ever.
#[derive(Drop)]
pub struct ClassStates {
    states: Vec<State>,
}

impl Model for ClassStates {
    ghost use Rattle.dv_machine.specs.Classes.{Classes};
    ghost use Rattle.dv_clinit.specs.States.{class_states};

    ghost Value = { Classes };

    ghost view = { λ s. class_states s.states.items };
}

impl ClassStates {
    /// The states as a run begins: a class is ready where neither it nor what is initialised before it, again and again, declares an
    /// initialiser: a superclass, or a superinterface that declares a default method.
    ///
    /// # Errors
    ///
    /// Want of memory.
    pub fn new(alloc: Global, image: &Image) -> Result<ClassStates, AllocError>
        ensures { IfOk result (λ s. s ≡ opening_states image.now image.now.classes 0) }
    {
        let states = first_states(alloc, image)?;
        Ok(ClassStates { states })
    }

    /// The state of a class.
    pub fn state(&self, class: ClassId) -> State
        ensures { class_state result ≡ state_at self.now class.0 }
    {
        match self.states.get(class.0 as usize) {
            Some(state) => *state,
            None => State::Fresh,
        }
    }

    /// What a thread that needs the class does (JLS 12.4.2, steps 2 to 6).
    pub fn ask(&self, class: ClassId, thread: u32) -> Ask
        ensures { result ≡ ask_of self.now class.0 thread }
    {
        self.state(class).asked_by(thread)
    }

    /// The thread begins to initialise the class (step 6).
    pub fn begin(&mut self, class: ClassId, thread: u32)
        requires { ask_of self.old class.0 thread ≡ Ask.Begin }
        ensures { self.new ≡ with_state self.old class.0 (InProgress thread) }
    {
        self.set(class, State::InProgress(thread));
    }

    /// The thread has initialised the class (step 10).
    pub fn finish(&mut self, class: ClassId, thread: u32)
        requires { state_at self.old class.0 ≡ InProgress thread }
        ensures { self.new ≡ with_state self.old class.0 Ready }
    {
        self.set(class, State::Ready);
    }

    /// The thread gave up on the class by an exception (steps 7 and 11).
    pub fn fail(&mut self, class: ClassId, thread: u32)
        requires { state_at self.old class.0 ≡ InProgress thread }
        ensures { self.new ≡ with_state self.old class.0 Erroneous }
    {
        self.set(class, State::Erroneous);
    }

    fn set(&mut self, class: ClassId, state: State)
        ensures { self.new ≡ with_state self.old class.0 (class_state state) }
    {
        let place = class.0 as usize;
        if place < self.states.len() {
            self.states[place] = state;
        }
    }
}
