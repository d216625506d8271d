// Reading a source.
ghost use Rattle.std.specs.Prelude.{◌≡◌, ◌<◌, ◌≤◌, ◌+◌, ℕ, List, take, IfOk, OnOk, IsErrOf};
ghost use Rattle.dv_io.specs.Io.{HasRisen, after_taking};
ghost use Rattle.dv_top.specs.declared.reading.ReadError.TheVariants.{Memory, Failed as ReadFailed};
ghost use Rattle.dv_top.specs.Said.{text_limit};
ghost use Rattle.dv_top.specs.Status.{status_of_error};

use crate::status::Status;
use dv_io::{Failed, Source};
use std::alloc::{AllocError, Global};

/// Why a source wasn't read.
#[derive(Clone, Copy)]
pub enum ReadError {
    /// A read failed.
    Failed,
    /// Memory is wanting.
    Memory,
}

impl From<AllocError> for ReadError {
    ghost from_gives = { λ _ e. e ≡ Memory };

    fn from(_: AllocError) -> ReadError {
        ReadError::Memory
    }
}

impl From<Failed> for ReadError {
    ghost from_gives = { λ _ e. e ≡ ReadFailed };

    fn from(_: Failed) -> ReadError {
        ReadError::Failed
    }
}

impl ReadError {
    /// The status that tells of it.
    pub fn status(self) -> Status
        ensures { result ≡ status_of_error self }
    {
        match self {
            ReadError::Failed => Status::ReadFault,
            ReadError::Memory => Status::NoMemory,
        }
    }
}

/// The most bytes of a text.
pub const TEXT_LIMIT: usize = 8_388_608;

/// Reads a source to its end, or to one byte past the limit.
pub fn read_all<S: Source>(alloc: Global, source: &mut S) -> Result<Vec<u8>, ReadError>
    ensures all { IfOk result (λ v. (bytes : List ℕ) → S.left source.old ≡ Some bytes → v.items ≡ take (text_limit + 1) bytes) }
    ensures left { OnOk result (S.left source.new ≡ after_taking (text_limit + 1) (S.left source.old)) }
    ensures count { S.faults source.old ≤ S.faults source.new }
    ensures failed { IsErrOf result ReadError.Failed → HasRisen (S.faults source.old) (S.faults source.new) }
{
    let mut text = Vec::new(alloc);
    let mut room = [0u8; 4096];
    'read: while text.len() <= TEXT_LIMIT {
        let most = (TEXT_LIMIT + 1 - text.len()).min(4096);
        let piece = &mut room[..most];
        let n = source.read(piece)?;
        if n == 0 {
            return Ok(text);
        }
        text.extend_from_slice(&piece[..n])?;
    }
    Ok(text)
}
