// What a line of a class says, outside its methods.
ghost use Rattle.std.specs.Prelude.{◌≡◌, ◌≤◌, IfOk, IsTrue, if◌then◌else◌};
ghost use Rattle.dv_coderead.specs.Words.{number_in};
ghost use Rattle.dv_coderead.specs.Operands.{word_at};
ghost use Rattle.dv_defs.specs.Field.{value_fits};
ghost use Rattle.dv_coderead.specs.Giving.{Gives, Reads};
ghost use Rattle.dv_coderead.specs.Pieces.{piece_in, pieces_in};
ghost use Rattle.dv_coderead.specs.Heads.{head_of};
ghost use Rattle.dv_classread.specs.FieldBits.{bits_of};
ghost use Rattle.dv_classread.specs.ClassLines.{boolean_value, by_directive, class_head_line, class_line, class_name, class_name_line, directive_refusal, field_line, fitting_value, flag_from_annotation, flag_from_native, flag_from_synchronized, flag_of, flags_at, init_line, inside_line, is_boolean, lacks_super, name_and_proto, name_and_type, next_class_line, number_value, refusal_of, signature_line, stands_next, superclass_line, value_alone, value_in, word_value, StandsIn};

use dv_coderead::parts::{after_first, end};
use dv_coderead::references::{class, cut_at, name, proto, ty};
use dv_coderead::words::literal;
use dv_coderead::{Directive, Head, Piece, Refusal};
use dv_defs::{Base, FieldDef, Flag, Init, LineKind, Proto, Text, Ty};
use std::alloc::Global;

const OBJECT: &[u8] = b"Ljava/lang/Object;";

/// How a method begins: its flags, its name and its prototype.
#[derive(Drop)]
pub struct Signature {
    pub name: Text,
    pub proto: Proto,
    pub flags: u32,
}

/// How a class begins, and on which line.
#[derive(Drop)]
pub struct ClassHead {
    pub name: Text,
    pub flags: u32,
    pub line: u32,
}

/// Where a line stands: before the first class, or in a class, which may be Object, or have its superclass already.
#[derive(Clone, Copy, PartialEq, Eq, Debug)]
pub enum Standing {
    Outside,
    Inside(bool, bool),
}

/// What a line of a class says.
#[derive(Drop)]
pub enum ClassLine {
    Class(ClassHead),
    Super(Text),
    Implements(Text),
    Source,
    Field(FieldDef),
    Method(Signature),
}

// ---- flags

#[tactic(auto, unfolding(crate::specs::ClassLines::flag_of))]
fn flag_of(word: &[u8]) -> Option<Flag>
    ensures { result ≡ flag_of word.now }
{
    if word == b"public".as_slice() {
        Some(Flag::Public)
    } else if word == b"private".as_slice() {
        Some(Flag::Private)
    } else if word == b"protected".as_slice() {
        Some(Flag::Protected)
    } else if word == b"static".as_slice() {
        Some(Flag::Static)
    } else if word == b"final".as_slice() {
        Some(Flag::Final)
    } else {
        flag_from_synchronized(word)
    }
}

/// The flag of a word, of those from `synchronized` on.
fn flag_from_synchronized(word: &[u8]) -> Option<Flag>
    ensures { result ≡ flag_from_synchronized word.now }
{
    if word == b"synchronized".as_slice() {
        Some(Flag::Synchronized)
    } else if word == b"volatile".as_slice() {
        Some(Flag::Volatile)
    } else if word == b"bridge".as_slice() {
        Some(Flag::Bridge)
    } else if word == b"transient".as_slice() {
        Some(Flag::Transient)
    } else if word == b"varargs".as_slice() {
        Some(Flag::Varargs)
    } else {
        flag_from_native(word)
    }
}

/// The flag of a word, of those from `native` on.
fn flag_from_native(word: &[u8]) -> Option<Flag>
    ensures { result ≡ flag_from_native word.now }
{
    if word == b"native".as_slice() {
        Some(Flag::Native)
    } else if word == b"interface".as_slice() {
        Some(Flag::Interface)
    } else if word == b"abstract".as_slice() {
        Some(Flag::Abstract)
    } else if word == b"strictfp".as_slice() {
        Some(Flag::Strictfp)
    } else if word == b"synthetic".as_slice() {
        Some(Flag::Synthetic)
    } else {
        flag_from_annotation(word)
    }
}

/// The flag of a word, of those from `annotation` on.
fn flag_from_annotation(word: &[u8]) -> Option<Flag>
    ensures { result ≡ flag_from_annotation word.now }
{
    if word == b"annotation".as_slice() {
        Some(Flag::Annotation)
    } else if word == b"enum".as_slice() {
        Some(Flag::Enum)
    } else if word == b"constructor".as_slice() {
        Some(Flag::Constructor)
    } else if word == b"declared-synchronized".as_slice() {
        Some(Flag::DeclaredSynchronized)
    } else {
        None
    }
}

/// The flags that stand in front, each once, and the pieces behind them.
fn flags_part<'a, 'b>(pieces: &'b [Piece<'a>]) -> Result<(u32, &'b [Piece<'a>]), LineKind>
    ensures { Reads (λ x. (x.0, pieces_in x.1.now)) result (flags_at 0 (pieces_in pieces.now)) }
{
    let mut flags = 0;
    let mut rest = pieces;
    while let [first, behind @ ..] = rest {
        let Piece::Word(word) = first else {
            return Ok((flags, rest));
        };
        let Some(flag) = flag_of(*word) else {
            return Ok((flags, rest));
        };
        if flag.is_in(flags) {
            return Err(LineKind::Repeated);
        }
        flags += flag.bit();
        rest = behind;
    }
    Ok((flags, rest))
}

// ---- classes

/// The descriptor of a class, and no array.
fn class_name(alloc: Global, word: &[u8]) -> Result<Text, Refusal>
    ensures { Gives (λ name. name) result (class_name word.now) }
{
    match class(alloc, word)?.base {
        Base::Class(name) => Ok(name),
        _ => Err(Refusal::Fault(LineKind::BadDescriptor)),
    }
}

#[tactic(auto, unfolding(crate::specs::ClassLines::class_name_line))]
fn class_name_line(alloc: Global, pieces: &[Piece]) -> Result<Text, Refusal>
    ensures { Gives (λ name. name) result (class_name_line (pieces_in pieces.now)) }
{
    let [first, rest @ ..] = pieces else {
        return Err(Refusal::Fault(LineKind::Operands));
    };
    let Piece::Word(word) = first else {
        return Err(Refusal::Fault(LineKind::Operands));
    };
    let name = class_name(alloc, *word)?;
    end(rest)?;
    Ok(name)
}

/// The flags of a class, and its descriptor.
#[tactic(auto, unfolding(crate::specs::ClassLines::class_head_line))]
fn class_head_line(alloc: Global, line: u32, pieces: &[Piece]) -> Result<ClassHead, Refusal>
    ensures { Gives (λ c. c) result (class_head_line line (pieces_in pieces.now)) }
{
    let (flags, rest) = flags_part(pieces)?;
    let name = class_name_line(alloc, rest)?;
    Ok(ClassHead { name, flags, line })
}

// ---- fields

/// A value that fits a type.
fn fitting_value(ty: &Ty, value: Init) -> Result<Init, LineKind>
    ensures exact { Reads (λ i. i) result (fitting_value ty.now value) }
    ensures fits { IfOk result (λ i. IsTrue (value_fits i ty.now)) }
{
    if value.fits(ty) {
        Ok(value)
    } else {
        Err(LineKind::NumberRange)
    }
}

/// In how many bits a number is read as one of this type: those of an int or a long, and more than any other type has.
fn bits_of(base: &Base) -> u32
    ensures exact { result ≡ bits_of base.now }
    ensures some { (1 ≤ result) × (result ≤ 64) }
{
    match base {
        Base::I => 32,
        Base::J => 64,
        _ => 33,
    }
}

/// The value of a number.
fn number_value(ty: &Ty, word: &[u8]) -> Result<Init, LineKind>
    ensures exact { Reads (λ i. i) result (number_value ty.now (number_in word.now)) }
    ensures fits { IfOk result (λ i. IsTrue (value_fits i ty.now)) }
{
    let number = literal(word, bits_of(&ty.base))?;
    fitting_value(ty, Init::Num(number))
}

fn is_boolean(ty: &Ty) -> bool
    ensures { result ≡ is_boolean ty.now }
{
    match (ty.dims, &ty.base) {
        (0, Base::Z) => true,
        _ => false,
    }
}

/// The value of a `boolean` field: 1 for `true`, 0 for `false`.
fn boolean_value(ty: &Ty, value: bool) -> Result<Init, LineKind>
    ensures exact { Reads (λ i. i) result (boolean_value ty.now (if value then 1 else 0)) }
    ensures fits { IfOk result (λ i. IsTrue (value_fits i ty.now)) }
{
    if is_boolean(ty) {
        Ok(Init::Num(if value { 1 } else { 0 }))
    } else {
        Err(LineKind::NumberRange)
    }
}

#[tactic(auto, unfolding(crate::specs::ClassLines::word_value))]
fn word_value(ty: &Ty, word: &[u8]) -> Result<Init, LineKind>
    ensures exact { Reads (λ i. i) result (word_value ty.now word.now) }
    ensures fits { IfOk result (λ i. IsTrue (value_fits i ty.now)) }
{
    if word == b"true".as_slice() {
        boolean_value(ty, true)
    } else if word == b"false".as_slice() {
        boolean_value(ty, false)
    } else if word == b"null".as_slice() {
        fitting_value(ty, Init::Null)
    } else {
        number_value(ty, word)
    }
}

/// The value of a field: a number, a boolean, a character, a string or null.
#[tactic(auto, unfolding(crate::specs::ClassLines::value_in))]
fn value_of(ty: &Ty, piece: &Piece) -> Result<Init, Refusal>
    ensures exact { Gives (λ i. i) result (value_in ty.now (piece_in piece.now)) }
    ensures fits { IfOk result (λ i. IsTrue (value_fits i ty.now)) }
{
    match piece {
        Piece::Word(word) => Ok(word_value(ty, *word)?),
        Piece::Char(unit) => Ok(fitting_value(ty, Init::Num(i64::from(*unit)))?),
        Piece::Str(units) => Ok(fitting_value(ty, Init::Str(units.clone()?))?),
        Piece::Mark(_) => Err(Refusal::Fault(LineKind::Operands)),
    }
}

/// The value and nothing more.
fn value_alone(ty: &Ty, pieces: &[Piece]) -> Result<Init, Refusal>
    ensures exact { Gives (λ i. i) result (value_alone ty.now (pieces_in pieces.now)) }
    ensures fits { IfOk result (λ i. IsTrue (value_fits i ty.now)) }
{
    let [first, rest @ ..] = pieces else {
        return Err(Refusal::Fault(LineKind::Operands));
    };
    let value = value_of(ty, first)?;
    end(rest)?;
    Ok(value)
}

/// What a field is defined with: nothing, or a value behind `=` where the field is static.
fn init_line(is_static: bool, ty: &Ty, pieces: &[Piece]) -> Result<Init, Refusal>
    ensures exact { Gives (λ i. i) result (init_line is_static ty.now (pieces_in pieces.now)) }
    ensures stands { IfOk result (StandsIn is_static ty.now) }
{
    let [first, rest @ ..] = pieces else {
        return Ok(Init::Absent);
    };
    match first {
        Piece::Mark(b'=') if is_static => value_alone(ty, rest),
        _ => Err(Refusal::Fault(LineKind::Operands)),
    }
}

/// A name, a colon and a type.
#[tactic(auto, unfolding(crate::specs::ClassLines::name_and_type))]
fn name_and_type(alloc: Global, word: &[u8]) -> Result<(Text, Ty), Refusal>
    ensures { Gives (λ x. x) result (name_and_type word.now) }
{
    let (own, descriptor) = cut_at(word, b':')?;
    let name = name(alloc, own)?;
    let ty = ty(alloc, descriptor)?;
    Ok((name, ty))
}

fn name_and_type_part<'a, 'b>(
    alloc: Global,
    pieces: &'b [Piece<'a>],
) -> Result<((Text, Ty), &'b [Piece<'a>]), Refusal>
    ensures { Gives (λ x. (x.0, pieces_in x.1.now)) result (word_at name_and_type (pieces_in pieces.now)) }
{
    let [first, rest @ ..] = pieces else {
        return Err(Refusal::Fault(LineKind::Operands));
    };
    match first {
        Piece::Word(word) => Ok((name_and_type(alloc, *word)?, rest)),
        _ => Err(Refusal::Fault(LineKind::Operands)),
    }
}

/// A field: its flags, its name and type, and its value.
#[tactic(auto, unfolding(crate::specs::ClassLines::field_line))]
fn field_line(alloc: Global, pieces: &[Piece]) -> Result<FieldDef, Refusal>
    ensures { Gives (λ f. f) result (field_line (pieces_in pieces.now)) }
{
    let (flags, rest) = flags_part(pieces)?;
    let ((name, ty), rest) = name_and_type_part(alloc, rest)?;
    match init_line(Flag::Static.is_in(flags), &ty, rest) {
        Ok(init) => Ok(FieldDef {
            name,
            ty,
            flags,
            init,
        }),
        Err(refusal) => {
            drop(name);
            drop(ty);
            Err(refusal)
        }
    }
}

// ---- methods

/// A name and a prototype, which begins with its parenthesis.
#[tactic(auto, unfolding(crate::specs::ClassLines::name_and_proto))]
fn name_and_proto(alloc: Global, flags: u32, word: &[u8]) -> Result<Signature, Refusal>
    ensures { Gives (λ s. s) result (name_and_proto flags word.now) }
{
    let (own, _) = cut_at(word, b'(')?;
    let name = name(alloc, own)?;
    let proto = proto(alloc, &word[own.len()..])?;
    Ok(Signature { name, proto, flags })
}

/// A method: its flags, its name and its prototype.
#[tactic(auto, unfolding(crate::specs::ClassLines::signature_line))]
fn signature_line(alloc: Global, pieces: &[Piece]) -> Result<Signature, Refusal>
    ensures { Gives (λ s. s) result (signature_line (pieces_in pieces.now)) }
{
    let (flags, rest) = flags_part(pieces)?;
    let [first, behind @ ..] = rest else {
        return Err(Refusal::Fault(LineKind::Operands));
    };
    let Piece::Word(word) = first else {
        return Err(Refusal::Fault(LineKind::Operands));
    };
    let signature = name_and_proto(alloc, flags, *word)?;
    end(behind)?;
    Ok(signature)
}

// ---- lines

fn directive_refusal(directive: Directive) -> LineKind
    ensures { result ≡ directive_refusal directive }
{
    match directive {
        Directive::OtherEnd => LineKind::Operands,
        Directive::Other => LineKind::UnknownDirective,
        _ => LineKind::Misplaced,
    }
}

/// Why such a line may not stand outside methods.
pub fn refusal_of(head: Head) -> LineKind
    ensures { result ≡ refusal_of head }
{
    match head {
        Head::Directive(directive) => directive_refusal(directive),
        Head::Float => LineKind::FloatInsn,
        Head::Other => LineKind::UnknownInsn,
        _ => LineKind::Misplaced,
    }
}

/// The superclass, which stands once, but not in Object.
fn superclass_line(
    alloc: Global,
    is_object: bool,
    has_super: bool,
    pieces: &[Piece],
) -> Result<ClassLine, Refusal>
    ensures { Gives (λ l. l) result (superclass_line is_object has_super (pieces_in pieces.now)) }
{
    if is_object {
        return Err(Refusal::Fault(LineKind::Misplaced));
    }
    if has_super {
        return Err(Refusal::Fault(LineKind::Repeated));
    }
    Ok(ClassLine::Super(class_name_line(alloc, pieces)?))
}

/// Whether a class is left without its superclass here.
pub fn lacks_super(standing: Standing) -> bool
    ensures { result ≡ lacks_super standing }
{
    match standing {
        Standing::Outside => false,
        Standing::Inside(is_object, has_super) => !is_object && !has_super,
    }
}

/// Where the line behind this one stands.
pub fn stands_next(standing: Standing, says: &ClassLine) -> Standing
    ensures { result ≡ stands_next standing says.now }
{
    match (says, standing) {
        (ClassLine::Class(head), _) => Standing::Inside(head.name.bytes() == OBJECT, false),
        (ClassLine::Super(_), Standing::Inside(is_object, _)) => Standing::Inside(is_object, true),
        _ => standing,
    }
}

/// The first line of a class.
fn next_class_line(
    alloc: Global,
    standing: Standing,
    line: u32,
    pieces: &[Piece],
) -> Result<ClassLine, Refusal>
    ensures { Gives (λ l. l) result (next_class_line standing line (pieces_in pieces.now)) }
{
    if lacks_super(standing) {
        return Err(Refusal::Fault(LineKind::Missing));
    }
    Ok(ClassLine::Class(class_head_line(alloc, line, pieces)?))
}

/// A line inside a class, behind its directive.
fn inside_line(
    alloc: Global,
    is_object: bool,
    has_super: bool,
    directive: Directive,
    pieces: &[Piece],
) -> Result<ClassLine, Refusal>
    ensures { Gives (λ l. l) result (inside_line is_object has_super directive (pieces_in pieces.now)) }
{
    match directive {
        Directive::Super => superclass_line(alloc, is_object, has_super, pieces),
        Directive::Implements => Ok(ClassLine::Implements(class_name_line(alloc, pieces)?)),
        Directive::Field => Ok(ClassLine::Field(field_line(alloc, pieces)?)),
        Directive::Method => Ok(ClassLine::Method(signature_line(alloc, pieces)?)),
        _ => Err(Refusal::Fault(directive_refusal(directive))),
    }
}

fn by_directive(
    alloc: Global,
    standing: Standing,
    line: u32,
    directive: Directive,
    pieces: &[Piece],
) -> Result<ClassLine, Refusal>
    ensures { Gives (λ l. l) result (by_directive standing line directive (pieces_in pieces.now)) }
{
    match (directive, standing) {
        (Directive::Class, _) => next_class_line(alloc, standing, line, pieces),
        (Directive::Source, _) => Ok(ClassLine::Source),
        (_, Standing::Outside) => Err(Refusal::Fault(directive_refusal(directive))),
        (_, Standing::Inside(is_object, has_super)) => {
            inside_line(alloc, is_object, has_super, directive, pieces)
        }
    }
}

/// What a line of a class says that stands there.
///
/// # Errors
///
/// The line's leftmost fault, or want of memory.
#[tactic(auto, unfolding(crate::specs::ClassLines::class_line))]
pub fn read_class_line(
    alloc: Global,
    standing: Standing,
    line: u32,
    head: Head,
    pieces: &[Piece],
) -> Result<ClassLine, Refusal>
    requires { head ≡ head_of (pieces_in pieces.now) }
    ensures { Gives (λ l. l) result (class_line standing line (pieces_in pieces.now)) }
{
    match head {
        Head::Directive(directive) => {
            by_directive(alloc, standing, line, directive, after_first(pieces))
        }
        _ => Err(Refusal::Fault(refusal_of(head))),
    }
}
