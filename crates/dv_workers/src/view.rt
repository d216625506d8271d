// What a seat knows. No value of it is made.
use dv_defs::{Limits, MethodId};
use dv_rules::Verified;

/// A program, its main method, and the limits of its run.
pub struct Names {
    pub verified: Verified,
    pub main: MethodId,
    pub limits: Limits,
}

/// What a seat's machine is a run of, and whether it holds the machine.
pub struct View {
    pub of: Names,
    pub holds: bool,
}
