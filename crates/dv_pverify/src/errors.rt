// Why an image isn't accepted.

use dv_defs::{Fault, Image, Seq};

/// The image as it was handed in with its faults, or want of memory.
#[derive(Drop)]
pub enum VerifyError {
    Faults { image: Image, faults: Seq<Fault> },
    Memory,
}
