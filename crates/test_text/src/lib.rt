//! Texts, numbers and units are read and written, and command lines read: tests of what no text of a program shows.
#![tactic(auto)]

#[cfg(test)]
mod asm;
#[cfg(test)]
mod boot;
#[cfg(test)]
mod classread;
#[cfg(test)]
mod coderead;
#[cfg(test)]
mod console;
#[cfg(test)]
mod lex;
#[cfg(test)]
mod listing;
#[cfg(test)]
mod log;
#[cfg(test)]
mod names;
#[cfg(test)]
mod optable;
#[cfg(test)]
mod program;
#[cfg(test)]
mod units;
