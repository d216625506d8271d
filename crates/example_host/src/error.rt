// Why a host's call has no answer.
use dv_console::Refusal;
use dv_defs::{Fault, LineError, LinkError, Seq};
use dv_load::ProgramError;
use dv_pverify::VerifyError;
use std::alloc::{AllocError, AllocFailed};

/// Why a host's call has no answer.
#[derive(Drop)]
pub enum HostError {
    /// The text has more bytes than the machine takes.
    TooLarge,
    /// A line or a class of the text is refused.
    Refused(Refusal),
    /// The verifier refuses these places of the program.
    Faulty(Seq<Fault>),
    /// A class of the text has no name.
    NoName,
    /// Memory is wanting.
    Memory,
}

impl From<AllocError> for HostError {
    fn from(_: AllocError) -> HostError {
        HostError::Memory
    }
}

impl<T: Drop> From<AllocFailed<T>> for HostError {
    fn from(_: AllocFailed<T>) -> HostError {
        HostError::Memory
    }
}

impl From<ProgramError> for HostError {
    fn from(error: ProgramError) -> HostError {
        match error {
            ProgramError::Refused(refusal) => HostError::Refused(refusal),
            ProgramError::Memory => HostError::Memory,
        }
    }
}

impl From<LineError> for HostError {
    fn from(error: LineError) -> HostError {
        HostError::from(ProgramError::from(error))
    }
}

impl From<LinkError> for HostError {
    fn from(error: LinkError) -> HostError {
        HostError::from(ProgramError::from(error))
    }
}

impl From<VerifyError> for HostError {
    fn from(error: VerifyError) -> HostError {
        match error {
            VerifyError::Faults { image, faults } => {
                drop(image);
                HostError::Faulty(faults)
            }
            VerifyError::Memory => HostError::Memory,
        }
    }
}
