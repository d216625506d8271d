// The words that a new block is filled with.

/// The first words of a block: so many zeros, the units of a string, or these words.
#[derive(Clone, Copy)]
pub enum Contents<'a> {
    Zeros(u32),
    Units(&'a [u16]),
    Words(&'a [u32]),
}
