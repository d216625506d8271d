//! The types that the crates of the machine share, and the definitions over them.
#![tactic(auto)]

mod boot;
mod class;
mod code;
mod faults;
mod flags;
mod image;
mod machine;
mod names;
mod pool;
mod run;
mod seq;

pub use boot::{BOOT_CLASSES, BOOT_FIELDS, BOOT_METHODS};
pub use class::{ClassDef, FieldDef, Init, MethodDef};
pub use code::{Body, Handler, Insn, Payload, PoolKind, Regs, Try};
pub use faults::{Fault, LineError, LineKind, LinkError, LinkKind, Rule, Which};
pub use flags::Flag;
pub use image::{ClassInfo, FieldInfo, Image, Index, MethodInfo, Select};
pub use machine::{Ask, Blocked, End};
pub use names::{Base, Chars, ClassId, FieldId, FieldRef, MethodId, MethodRef, Proto, Text, Ty};
pub use pool::Pool;
pub use run::{Ending, Entry, Limits, Named, Native, Next, Preallocated};
pub use seq::Seq;
