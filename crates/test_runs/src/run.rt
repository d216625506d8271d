// A program, how it is run, and what its run comes to.
use dv_defs::{Ending, Limits};

/// What holds a thread up.
#[derive(Clone, Copy, PartialEq, Eq, Debug)]
pub enum Hold<'a> {
    Monitor,
    Wait,
    /// The class of this descriptor, which another thread initialises.
    Class(&'a str),
    /// The end of this thread.
    Join(u32),
}

/// How a thread stands: what holds it up where it lives and isn't runnable, and the class of its exception.
#[derive(Clone, Copy, PartialEq, Eq, Debug)]
pub enum Stands<'a> {
    /// It may step.
    Runnable,
    Held(Hold<'a>),
    /// An exception of this class flies.
    Flying(&'a str),
    Returned,
    /// It died of an exception of this class.
    Died(&'a str),
}

/// A program whose class LMain; has a static `main()V`, and what its run comes to.
#[derive(Clone, Copy)]
pub struct Run {
    /// The registers and the body of main.
    pub registers: &'static str,
    pub body: &'static str,
    /// Its other members.
    pub members: &'static str,
    /// The registers and the body of `run()V` of a class LT; under Thread, where there is one.
    pub thread: Option<(&'static str, &'static str)>,
    /// Other classes.
    pub classes: &'static str,
    pub limits: Limits,
    /// The turns that are taken first: a thread, and its steps. Behind them the lowest runnable thread steps, until the run ends.
    pub turns: &'static [(u32, u32)],
    pub output: &'static str,
    pub ending: Ending,
    /// How each thread stands then.
    pub threads: &'static [Stands<'static>],
    /// The steps that were done, where they are told.
    pub steps: Option<u64>,
}

/// Room for all that the programs do.
pub const AMPLE: Limits = Limits {
    budget: 100_000,
    heap: 1_048_576,
    output: 16_777_216,
    threads: 64,
    levels: 1024,
    words: 16_384,
};

/// A main method that returns at once.
pub const RUN: Run = Run {
    registers: "0",
    body: "return-void",
    members: "",
    thread: None,
    classes: "",
    limits: AMPLE,
    turns: &[],
    output: "",
    ending: Ending::Done,
    threads: &[Stands::Returned],
    steps: None,
};
