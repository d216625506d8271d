// The registers of one frame.
ghost use Rattle.std.specs.Prelude.{◌≡◌, ℕ, suc, ◌<◌, ◌^◌, slice_set};
ghost use Rattle.dv_words.specs.Words.{word_at};

/// The word of a register, 0 where there is none.
#[inline]
pub fn word(words: &[u32], reg: u16) -> u32
    ensures { result ≡ word_at words.now reg }
{
    read(words, usize::from(reg))
}

/// The word at a place, 0 past the end.
#[inline]
pub fn read(words: &[u32], place: usize) -> u32
    ensures { result ≡ word_at words.now place }
{
    match words.get(place) {
        Some(word) => *word,
        None => 0,
    }
}

/// The words of a register and of the one after it, 0 where there is none.
#[inline]
pub fn two_words(words: &[u32], reg: u16) -> (u32, u32)
    ensures { result ≡ (word_at words.now reg, word_at words.now (suc reg)) }
{
    let place = usize::from(reg);
    (read(words, place), read(words, place + 1))
}

/// Writes a register, where it is there.
#[inline]
pub fn set_word(words: &mut [u32], reg: u16, word: u32)
    ensures { words.new ≡ slice_set words.old reg word }
{
    write(words, usize::from(reg), word);
}

/// Writes the word at a place, where it is there.
#[inline]
pub fn write(words: &mut [u32], place: usize, word: u32)
    ensures { words.new ≡ slice_set words.old place word }
{
    if place < words.len() {
        words[place] = word;
    }
}

/// Writes a register and the one after it, each where it is there.
#[inline]
pub fn set_two(words: &mut [u32], reg: u16, low: u32, high: u32)
    ensures { words.new ≡ slice_set (slice_set words.old reg low) (suc reg) high }
{
    let place = usize::from(reg);
    write(words, place, low);
    write(words, place + 1, high);
}

/// Tells a caller's proof that words have 32 bits. It does nothing.
#[inline]
pub fn words_are_whole(words: &[u32])
    ensures { (k : ℕ) → word_at words.now k < 2 ^ 32 }
{
    let _ = words;
}
