// What a line is, by its first words.
ghost use Rattle.std.specs.Prelude.{◌≡◌, option_map};
ghost use Rattle.std.specs.List.{All};
ghost use Rattle.dv_lex.specs.Lines.{lexemes_in, IsInside};
ghost use Rattle.dv_coderead.specs.Pieces.{pieces_of};
ghost use Rattle.dv_coderead.specs.Heads.{class_directive, colon_head, directive_of, ended_by, ended_outside, ends_skipped, end_of, first_word, head_of, insn_head, is_float_name, is_skipped, method_directive, raw_directive, restart_of, skipped_directive, two_word_directive, word_head};
ghost use Rattle.dv_optable.specs.Table.{opcode_named};

use crate::names::is_name;
use dv_lex::{Token, TokenKind};
use dv_optable::name_to_opcode;

/// A block of lines in a method: a packed or a sparse switch, the elements of an array, or the units of a raw body.
#[derive(Clone, Copy, PartialEq, Eq, Debug)]
pub enum Block {
    Packed,
    Sparse,
    Data,
    Units,
}

/// A directive, which begins with a dot.
#[derive(Clone, Copy, PartialEq, Eq, Debug)]
pub enum Directive {
    Class,
    Super,
    Source,
    Implements,
    Field,
    Method,
    EndMethod,
    Schedule,
    EndSchedule,
    Registers,
    Locals,
    Catch,
    Catchall,
    Begin(Block),
    End(Block),
    Rawref,
    Rawtry,
    Annotation,
    EndAnnotation,
    /// A line that is passed over, whatever else it holds.
    Skipped,
    /// `.end` or `.restart` without a word behind it that is known.
    OtherEnd,
    Other,
}

/// What the first word of a line tells; the first two where the first is `.end` or `.restart`.
#[derive(Clone, Copy, PartialEq, Eq, Debug)]
pub enum Head {
    Blank,
    Directive(Directive),
    Label,
    Opcode(u8),
    /// An instruction on floats or doubles, which this machine leaves out.
    Float,
    Other,
}

#[tactic(auto, unfolding(crate::specs::Heads::class_directive))]
fn class_directive(word: &[u8]) -> Option<Directive>
    ensures { result ≡ class_directive word.now }
{
    if word == b".class".as_slice() {
        Some(Directive::Class)
    } else if word == b".super".as_slice() {
        Some(Directive::Super)
    } else if word == b".source".as_slice() {
        Some(Directive::Source)
    } else if word == b".implements".as_slice() {
        Some(Directive::Implements)
    } else if word == b".field".as_slice() {
        Some(Directive::Field)
    } else if word == b".method".as_slice() {
        Some(Directive::Method)
    } else if word == b".schedule".as_slice() {
        Some(Directive::Schedule)
    } else {
        None
    }
}

#[tactic(auto, unfolding(crate::specs::Heads::method_directive))]
fn method_directive(word: &[u8]) -> Option<Directive>
    ensures { result ≡ method_directive word.now }
{
    if word == b".registers".as_slice() {
        Some(Directive::Registers)
    } else if word == b".locals".as_slice() {
        Some(Directive::Locals)
    } else if word == b".catch".as_slice() {
        Some(Directive::Catch)
    } else if word == b".catchall".as_slice() {
        Some(Directive::Catchall)
    } else if word == b".packed-switch".as_slice() {
        Some(Directive::Begin(Block::Packed))
    } else if word == b".sparse-switch".as_slice() {
        Some(Directive::Begin(Block::Sparse))
    } else if word == b".array-data".as_slice() {
        Some(Directive::Begin(Block::Data))
    } else {
        None
    }
}

#[tactic(auto, unfolding(crate::specs::Heads::raw_directive))]
fn raw_directive(word: &[u8]) -> Option<Directive>
    ensures { result ≡ raw_directive word.now }
{
    if word == b".rawref".as_slice() {
        Some(Directive::Rawref)
    } else if word == b".units".as_slice() {
        Some(Directive::Begin(Block::Units))
    } else if word == b".rawtry".as_slice() {
        Some(Directive::Rawtry)
    } else {
        None
    }
}

#[tactic(auto, unfolding(crate::specs::Heads::is_skipped))]
fn is_skipped(word: &[u8]) -> bool
    ensures { result ≡ is_skipped word.now }
{
    word == b".line".as_slice()
        || word == b".prologue".as_slice()
        || word == b".epilogue".as_slice()
        || word == b".local".as_slice()
        || word == b".param".as_slice()
}

#[tactic(auto, unfolding(crate::specs::Heads::skipped_directive))]
fn skipped_directive(word: &[u8]) -> Option<Directive>
    ensures { result ≡ skipped_directive word.now }
{
    if word == b".annotation".as_slice() {
        Some(Directive::Annotation)
    } else if is_skipped(word) {
        Some(Directive::Skipped)
    } else {
        None
    }
}

/// Whether it ends something that is passed over.
fn ends_skipped(word: &[u8]) -> bool
    ensures { result ≡ ends_skipped word.now }
{
    word == b"local".as_slice() || word == b"param".as_slice() || word == b"field".as_slice()
}

/// What such a word behind `.end` ends, if it is no method and no block of an instruction.
fn ended_outside(word: &[u8]) -> Directive
    ensures { result ≡ ended_outside word.now }
{
    if word == b"units".as_slice() {
        Directive::End(Block::Units)
    } else if word == b"schedule".as_slice() {
        Directive::EndSchedule
    } else if word == b"annotation".as_slice() {
        Directive::EndAnnotation
    } else if ends_skipped(word) {
        Directive::Skipped
    } else {
        Directive::OtherEnd
    }
}

/// What such a word behind `.end` ends.
#[tactic(auto, unfolding(crate::specs::Heads::ended_by))]
fn ended_by(word: &[u8]) -> Directive
    ensures { result ≡ ended_by word.now }
{
    if word == b"method".as_slice() {
        Directive::EndMethod
    } else if word == b"packed-switch".as_slice() {
        Directive::End(Block::Packed)
    } else if word == b"sparse-switch".as_slice() {
        Directive::End(Block::Sparse)
    } else if word == b"array-data".as_slice() {
        Directive::End(Block::Data)
    } else {
        ended_outside(word)
    }
}

fn end_of(second: Option<&[u8]>) -> Directive
    ensures { result ≡ end_of (option_map (λ w. w.now) second.entry) }
{
    match second {
        Some(word) => ended_by(word),
        None => Directive::OtherEnd,
    }
}

fn restart_of(second: Option<&[u8]>) -> Directive
    ensures { result ≡ restart_of (option_map (λ w. w.now) second.entry) }
{
    match second {
        Some(word) if word == b"local".as_slice() => Directive::Skipped,
        _ => Directive::OtherEnd,
    }
}

#[tactic(auto, unfolding(crate::specs::Heads::two_word_directive))]
fn two_word_directive(word: &[u8], second: Option<&[u8]>) -> Directive
    ensures { result ≡ two_word_directive word.now (option_map (λ w. w.now) second.entry) }
{
    if word == b".end".as_slice() {
        end_of(second)
    } else if word == b".restart".as_slice() {
        restart_of(second)
    } else {
        Directive::Other
    }
}

/// The directive of a word, with the word behind it.
#[tactic(auto, unfolding(crate::specs::Heads::directive_of))]
fn directive_of(word: &[u8], second: Option<&[u8]>) -> Directive
    ensures { result ≡ directive_of word.now (option_map (λ w. w.now) second.entry) }
{
    if let Some(directive) = class_directive(word) {
        return directive;
    }
    if let Some(directive) = method_directive(word) {
        return directive;
    }
    if let Some(directive) = raw_directive(word) {
        return directive;
    }
    if let Some(directive) = skipped_directive(word) {
        return directive;
    }
    two_word_directive(word, second)
}

/// The names of the instructions on floats and doubles.
const FLOAT_NAMES: &[u8] =
    b"cmpl-float cmpg-float cmpl-double cmpg-double neg-float neg-double int-to-float int-to-double long-to-float long-to-double float-to-int float-to-long float-to-double double-to-int double-to-long double-to-float add-float sub-float mul-float div-float rem-float add-double sub-double mul-double div-double rem-double add-float/2addr sub-float/2addr mul-float/2addr div-float/2addr rem-float/2addr add-double/2addr sub-double/2addr mul-double/2addr div-double/2addr rem-double/2addr";

fn is_float_name(word: &[u8]) -> bool
    ensures { result ≡ is_float_name word.now }
{
    FLOAT_NAMES
        .split(|byte| *byte == b' ')
        .any(|name| name == word)
}

fn insn_head(word: &[u8]) -> Head
    ensures { result ≡ insn_head (opcode_named word.now) word.now }
{
    match name_to_opcode(word) {
        Some(op) => Head::Opcode(op),
        None if is_float_name(word) => Head::Float,
        None => Head::Other,
    }
}

/// What stands behind a colon: a label, if it is a name.
fn colon_head(name: &[u8]) -> Head
    ensures { result ≡ colon_head name.now }
{
    if is_name(name) {
        Head::Label
    } else {
        Head::Other
    }
}

fn word_head(word: &[u8], second: Option<&[u8]>) -> Head
    ensures { result ≡ word_head word.now (option_map (λ w. w.now) second.entry) }
{
    match word {
        [b'.', ..] => Head::Directive(directive_of(word, second)),
        [b':', name @ ..] => colon_head(name),
        _ => insn_head(word),
    }
}

/// The first of these tokens, where it is a word.
fn first_word<'a>(text: &'a [u8], tokens: &[Token]) -> Option<&'a [u8]>
    requires { All (IsInside text.now) tokens.now }
    ensures { option_map (λ w. w.now) result ≡ first_word (pieces_of (lexemes_in text.now tokens.now)) }
{
    let first = tokens.first()?;
    match first.kind {
        TokenKind::Word => Some(first.bytes(text)),
        _ => None,
    }
}

/// What the line of these tokens is.
#[tactic(auto, unfolding(crate::specs::Heads::head_of))]
pub fn head_of(text: &[u8], tokens: &[Token]) -> Head
    requires { All (IsInside text.now) tokens.now }
    ensures { result ≡ head_of (pieces_of (lexemes_in text.now tokens.now)) }
{
    let [_, behind @ ..] = tokens else {
        return Head::Blank;
    };
    match first_word(text, tokens) {
        Some(word) => word_head(word, first_word(text, behind)),
        None => Head::Other,
    }
}
