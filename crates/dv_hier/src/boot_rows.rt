// The table of boot classes as rows of words, and what a word says.
ghost use Rattle.std.specs.Prelude.{◌≡◌, drop, map, nat_eq, IfOk};
ghost use Rattle.std.specs.List.{slice_split};
ghost use Rattle.dv_defs.specs.Boot.{word, rows, is_row_of, flag_name, tells_flag, both_or_none, flags_are, base_in, type_in, result_is, types_are, parent_is, names_are};
ghost use Rattle.dv_defs.specs.Flags.{has_flag};
ghost use Rattle.dv_defs.specs.Types.{base_eq, ty_eq};

use dv_defs::{Base, Flag, Text, Ty};
use std::alloc::{AllocError, Global};
use std::marker::Model;

/// A line of the table as its words.
#[derive(Drop)]
pub struct Row {
    words: Vec<&'static [u8]>,
}

impl Model for Row {
    ghost use Rattle.std.specs.Prelude.{List, ℕ, map};

    ghost Value = { List (List ℕ) };

    ghost view = { λ r. map (λ w. w.now) r.words.items };
}

impl Row {
    /// The word at a place, which is empty behind the last one.
    pub fn word(&self, place: usize) -> &'static [u8]
        ensures { result.now ≡ word self.now place }
    {
        match self.words.get(place) {
            Some(word) => *word,
            None => &[],
        }
    }

    /// The words from this place on.
    pub fn words_from(&self, place: usize) -> &[&'static [u8]]
        ensures { map (λ w. w.now) result.now ≡ drop place self.now }
    {
        let words = self.words.as_slice();
        &words[place.min(words.len())..]
    }

    /// Whether the row is one of the class.
    pub fn is_of(&self, class: &[u8]) -> bool
        ensures { result ≡ is_row_of class.now self.now }
    {
        self.word(0) == class
    }
}

/// The parts of a text between bytes of this kind.
fn parts(alloc: Global, text: &'static [u8], end: u8) -> Result<Vec<&'static [u8]>, AllocError>
    ensures { IfOk result (λ parts. map (λ x. x.now) parts.items ≡ slice_split (λ b. nat_eq b end) text.now) }
{
    text.split(|byte| *byte == end).collect(alloc)
}

/// The rows of a table.
pub fn rows(alloc: Global, text: &'static str) -> Result<Vec<Row>, AllocError>
    ensures { IfOk result (λ found. found.items ≡ rows text.now) }
{
    let lines = parts(alloc, text.as_bytes(), b'\n')?;
    let mut rows = Vec::new(alloc);
    for line in &lines {
        rows.push(Row {
            words: parts(alloc, *line, b' ')?,
        })?;
    }
    Ok(rows)
}

/// A flag's name, where the flag has an effect.
fn flag_name(flag: Flag) -> &'static [u8]
    ensures { result.now ≡ flag_name flag }
{
    match flag {
        Flag::Static => b"static",
        Flag::Final => b"final",
        Flag::Private => b"private",
        Flag::Native => b"native",
        Flag::Interface => b"interface",
        Flag::Abstract => b"abstract",
        Flag::Volatile => b"volatile",
        _ => b"",
    }
}

/// Whether the word tells the flag.
fn tells_flag(word: &[u8], flag: Flag) -> bool
    ensures { result ≡ tells_flag word.now flag }
{
    let name = flag_name(flag);
    word.split(|byte| *byte == b'+').any(|part| name == part)
}

/// Whether the flag is there just where the word tells it.
fn flag_is(word: &[u8], flags: u32, flag: Flag) -> bool
    ensures { result ≡ both_or_none (tells_flag word.now flag) (has_flag flags flag) }
{
    tells_flag(word, flag) == flag.is_in(flags)
}

/// Whether of the flags that have an effect just those are there that the word tells.
pub fn flags_are(word: &[u8], flags: u32) -> bool
    ensures { result ≡ flags_are word.now flags }
{
    flag_is(word, flags, Flag::Static)
        && flag_is(word, flags, Flag::Final)
        && flag_is(word, flags, Flag::Private)
        && flag_is(word, flags, Flag::Native)
        && flag_is(word, flags, Flag::Interface)
        && flag_is(word, flags, Flag::Abstract)
        && flag_is(word, flags, Flag::Volatile)
}

/// Whether a word names the type without dimensions.
fn base_is(word: &[u8], base: &Base) -> bool
    ensures { result ≡ base_eq (base_in word.now) base.now }
{
    if word == b"Z".as_slice() {
        matches!(base, Base::Z)
    } else if word == b"B".as_slice() {
        matches!(base, Base::B)
    } else if word == b"C".as_slice() {
        matches!(base, Base::C)
    } else if word == b"S".as_slice() {
        matches!(base, Base::S)
    } else if word == b"I".as_slice() {
        matches!(base, Base::I)
    } else if word == b"J".as_slice() {
        matches!(base, Base::J)
    } else {
        match base {
            Base::Class(name) => word == name.bytes(),
            _ => false,
        }
    }
}

/// Whether a word names the type: a bracket for each dimension, and the type without dimensions.
pub fn type_is(word: &[u8], ty: &Ty) -> bool
    ensures { result ≡ ty_eq (type_in word.now) ty.now }
{
    let dims = word
        .iter()
        .position(|byte| *byte != b'[')
        .unwrap_or(word.len());
    dims == usize::from(ty.dims) && base_is(&word[dims..], &ty.base)
}

/// Whether a word names the type of a result.
pub fn result_is(word: &[u8], ret: &Option<Ty>) -> bool
    ensures { result ≡ result_is word.now ret.now }
{
    match ret {
        None => word == b"V".as_slice(),
        Some(ty) => word != b"V".as_slice() && type_is(word, ty),
    }
}

/// Whether words name the types.
pub fn types_are(words: &[&[u8]], types: &[Ty]) -> bool
    ensures { result ≡ types_are (map (λ w. w.now) words.now) types.now }
{
    words.len() == types.len() && words.iter().zip(types).all(|(word, ty)| type_is(*word, ty))
}

/// Whether a word names the superclass.
pub fn parent_is(word: &[u8], parent: &Option<Text>) -> bool
    ensures { result ≡ parent_is word.now parent.now }
{
    match parent {
        None => word == b"-".as_slice(),
        Some(name) => word != b"-".as_slice() && word == name.bytes(),
    }
}

/// Whether words are the names.
pub fn names_are(words: &[&[u8]], names: &[Text]) -> bool
    ensures { result ≡ names_are (map (λ w. w.now) words.now) names.now }
{
    words.len() == names.len()
        && words
            .iter()
            .zip(names)
            .all(|(word, name)| *word == name.bytes())
}
