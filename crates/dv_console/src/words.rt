// The words of a command line, read.
ghost use Rattle.std.specs.Prelude.{◌≡◌, map, string_bytes, if◌then◌else◌};
ghost use Rattle.dv_console.specs.Words.{Reads, alone, command_in, demo_in, descriptor_of, is_java_name, limits_in, limits_of, replay_in, run_in};

use crate::command::{Cmd, WordError};
use crate::keys::{Key, are_of, setting};
use crate::names::{descriptor_of, is_java_name};
use dv_defs::{Limits, Text};
use std::alloc::Global;

/// The descriptor of the class of a name.
fn class_of(alloc: Global, name: &str) -> Result<Text, WordError>
    ensures { Reads (λ t. t) result (if is_java_name name.now then Some (descriptor_of name.now) else None) }
{
    if !is_java_name(name.as_bytes()) {
        return Err(WordError::Usage);
    }
    let class = descriptor_of(alloc, name.as_bytes())?;
    Ok(class)
}

/// The limits of a run for which no words set any.
pub fn default_limits() -> Limits
    ensures { result ≡ limits_of None None }
{
    Limits {
        budget: 10_000_000,
        heap: 1_048_576,
        output: 16_777_216,
        threads: 64,
        levels: 1_024,
        words: 16_384,
    }
}

/// The limits of a run, of which the words set the steps and the words of the heap.
fn limits_in(words: &[String]) -> Result<Limits, WordError>
    ensures { Reads (λ l. l) result (limits_in (map string_bytes words.now)) }
{
    let budget = setting(Key::Budget, words)?;
    let heap = setting(Key::Heap, words)?;
    let limits = default_limits();
    Ok(Limits {
        budget: budget.unwrap_or(limits.budget),
        heap: heap.unwrap_or(u64::from(limits.heap)) as u32,
        ..limits
    })
}

/// A run of a class, with a number of workers or with a seed.
fn run_in(class: Text, words: &[String]) -> Result<Cmd, WordError>
    ensures { Reads (λ c. c) result (run_in class (map string_bytes words.now)) }
{
    let keys = [Key::Workers, Key::Seed, Key::Budget, Key::Heap, Key::Log];
    if !are_of(&keys, words) {
        return Err(WordError::Usage);
    }
    let workers = setting(Key::Workers, words)?;
    let seed = setting(Key::Seed, words)?;
    let limits = limits_in(words)?;
    let log = setting(Key::Log, words)?;
    if workers.is_some() && seed.is_some() {
        return Err(WordError::Usage);
    }
    Ok(Cmd::Run {
        name: class,
        workers: workers.unwrap_or(1) as u32,
        seed,
        limits,
        log: log.is_some(),
    })
}

/// A replay of a class.
fn replay_in(class: Text, words: &[String]) -> Result<Cmd, WordError>
    ensures { Reads (λ c. c) result (replay_in class (map string_bytes words.now)) }
{
    if !are_of(&[Key::Budget, Key::Heap], words) {
        return Err(WordError::Usage);
    }
    let limits = limits_in(words)?;
    Ok(Cmd::Replay {
        name: class,
        limits,
    })
}

/// A demo, whose number, classes and threads the words must set.
fn demo_in(words: &[String]) -> Result<Cmd, WordError>
    ensures { Reads (λ c. c) result (demo_in (map string_bytes words.now)) }
{
    let keys = [Key::Number, Key::Classes, Key::Threads, Key::Workers];
    if !are_of(&keys, words) {
        return Err(WordError::Usage);
    }
    let number = setting(Key::Number, words)?.ok_or(WordError::Usage)?;
    let classes = setting(Key::Classes, words)?.ok_or(WordError::Usage)?;
    let threads = setting(Key::Threads, words)?.ok_or(WordError::Usage)?;
    let workers = setting(Key::Workers, words)?;
    Ok(Cmd::Demo {
        number,
        classes: classes as u32,
        threads: threads as u32,
        workers: workers.unwrap_or(1) as u32,
    })
}

/// A command that takes no words.
fn alone(cmd: Cmd, words: &[String]) -> Result<Cmd, WordError>
    ensures { Reads (λ c. c) result (alone cmd (map string_bytes words.now)) }
{
    if words.is_empty() {
        Ok(cmd)
    } else {
        Err(WordError::Usage)
    }
}

/// Reads the words of a command line, without the program's name.
///
/// # Errors
///
/// The words aren't a command, or memory is wanting.
pub fn read_words(alloc: Global, words: &[String]) -> Result<Cmd, WordError>
    ensures { Reads (λ c. c) result (command_in (map string_bytes words.now)) }
{
    let (verb, words) = words.split_first().ok_or(WordError::Usage)?;
    match verb.as_str() {
        "run" => {
            let (name, words) = words.split_first().ok_or(WordError::Usage)?;
            run_in(class_of(alloc, name)?, words)
        }
        "replay" => {
            let (name, words) = words.split_first().ok_or(WordError::Usage)?;
            replay_in(class_of(alloc, name)?, words)
        }
        "verify" => alone(Cmd::Verify, words),
        "list" => alone(Cmd::List, words),
        "demo" => demo_in(words),
        _ => Err(WordError::Usage),
    }
}
