//! The program: standard input, standard output and no gate, handed to the top call.
#![tactic(auto)]

use dv_io::{NoGate, StdSink, StdSource};
use dv_top::{Status, dvm};
use std::env::{Env, FillError};
use std::process::ExitCode;
use std::{env, io};

fn main(rt: HostRuntime) -> ExitCode {
    let words = match words_of(&rt) {
        Ok(words) => words,
        Err(_) => return ExitCode::from(Status::NoMemory.code()),
    };
    let mut source = StdSource {
        inner: rt.stdin(),
        faults: 0,
    };
    let sink = StdSink {
        inner: rt.stdout(),
        faults: 0,
    };
    let report = dvm(
        &rt,
        rt.alloc(),
        words.as_slice(),
        &mut source,
        sink,
        &NoGate,
    );
    ExitCode::from(report.status)
}

/// The command line without the program's name. No words, which are no command, where one isn't UTF-8.
fn words_of<R: Env + AllocGlobal>(rt: &R) -> io::Result<Vec<String>> {
    let mut words = Vec::new(rt.alloc());
    match env::args(&(AfterName(rt), rt.alloc())) {
        Ok(args) => {
            for word in args {
                words.push(word)?;
            }
            Ok(words)
        }
        Err(error) if error.kind() == io::ErrorKind::InvalidData => Ok(words),
        Err(error) => Err(error),
    }
}

/// A command line whose first argument is the one after the program's name, which may be no UTF-8.
#[derive(Drop)]
struct AfterName<'a, E>(&'a E);

impl<E: Env> Env for AfterName<'_, E> {
    fn arg(&self, i: usize, buf: &mut [u8]) -> Result<usize, FillError> {
        match i.checked_add(1) {
            Some(place) => self.0.arg(place, buf),
            None => Err(FillError::NotPresent),
        }
    }

    fn var(&self, name: &str, buf: &mut [u8]) -> Result<usize, FillError> {
        self.0.var(name, buf)
    }

    fn var_at(&self, i: usize, buf: &mut [u8]) -> Result<usize, FillError> {
        self.0.var_at(i, buf)
    }
}
