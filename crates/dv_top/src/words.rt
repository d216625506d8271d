// The command line.
ghost use Rattle.std.specs.Prelude.{◌≡◌, map, IfOk, IfSome, string_bytes};
ghost use Rattle.dv_console.specs.Words.{command_in};
ghost use Rattle.dv_top.specs.Words.{IsUsable};

use dv_console::{Cmd, WordError, read_words};
use std::alloc::{AllocError, Global};

/// Reads the words of the command line, without the program's name; none where they aren't a command.
pub fn command_of(alloc: Global, words: &[String]) -> Result<Option<Cmd>, AllocError>
    ensures asked { IfOk result (λ command. command ≡ command_in (map string_bytes words.now)) }
    ensures usable { IfOk result (λ command. IfSome command IsUsable) }
{
    match read_words(alloc, words) {
        Ok(command) => Ok(Some(command)),
        Err(WordError::Usage) => Ok(None),
        Err(WordError::Memory) => Err(AllocError),
    }
}
