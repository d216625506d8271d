//! Calls of single parts of the engine, where no text of a program shows what they answer: the state is none that a program comes to, the
//! instruction is another part's, or what is asked is seen in the image alone. Tests that cross crates.
#![tactic(auto)]

#[cfg(test)]
mod births;
#[cfg(test)]
mod calls;
#[cfg(test)]
mod fixtures;
#[cfg(test)]
mod heaps;
#[cfg(test)]
mod image_rows;
#[cfg(test)]
mod images;
#[cfg(test)]
mod local_rows;
#[cfg(test)]
mod locals;
#[cfg(test)]
mod monitors;
#[cfg(test)]
mod natives;
#[cfg(test)]
mod records;
#[cfg(test)]
mod threads;
#[cfg(test)]
mod unwinding;
