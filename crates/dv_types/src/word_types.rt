// The order and the joins of register types as words.
ghost use Rattle.std.specs.Prelude.{◌≡◌, ◌⊎◌, ◌+◌, ◌-◌, ◌<◌, ◌≤◌, IfSome, length};
ghost use Rattle.dv_bases.specs.Bases.{IsNumbered, IsPart, IsWord, base_count, base_of, class_count, type_in, type_of, word_type};
ghost use Rattle.dv_defs.specs.Common.{common_classes, common_flat as flat_common, common_super, object_type};
ghost use Rattle.dv_defs.specs.Op.{class_of_base};
ghost use Rattle.dv_defs.specs.Order.{both_found, extends, sub, under_base};
ghost use Rattle.dv_defs.specs.Types.{base_eq, of_base, ty_eq};
ghost use Rattle.dv_typing.specs.Joins.{join_classes as classes_of_both, join_type, same_type};
ghost use Rattle.dv_typing.specs.RegTypes.{under};
ghost use Rattle.dv_types.specs.Numbers.{IsGround, depth};

use crate::classes::ClassTable;
use dv_bases::{Bases, Part, Reference, part_of, word_of};

/// Whether the type of a word is under that of another: each value of the one is one of the other.
#[tactic(auto, using(crate::proofs::Same::under_equal))]
pub fn is_word_under(table: &ClassTable<'_>, bases: &Bases<'_>, word: u32, above: u32) -> bool
    requires image { table.now ≡ bases.now.image }
    requires word { IsWord bases.now word }
    requires above { IsWord bases.now above }
    ensures { result ≡ under bases.now.image (word_type bases.now word) (word_type bases.now above) }
{
    if word == above {
        return true;
    }
    is_part_under(table, bases, part_of(word), part_of(above))
}

/// Whether two words are of one type.
pub fn is_same_word(table: &ClassTable<'_>, bases: &Bases<'_>, word: u32, other: u32) -> bool
    requires image { table.now ≡ bases.now.image }
    requires word { IsWord bases.now word }
    requires other { IsWord bases.now other }
    ensures { result ≡ same_type (word_type bases.now word) (word_type bases.now other) }
{
    have_ground(table, bases);
    is_word_under(table, bases, word, other) && is_word_under(table, bases, other, word)
}

/// The word of the least register type above two.
pub fn joined_word(table: &ClassTable<'_>, bases: &Bases<'_>, word: u32, other: u32) -> u32
    requires image { table.now ≡ bases.now.image }
    requires word { IsWord bases.now word }
    requires other { IsWord bases.now other }
    ensures joined { word_type bases.now result ≡ join_type bases.now.image (word_type bases.now word) (word_type bases.now other) }
    ensures word { IsWord bases.now result }
{
    if is_word_under(table, bases, word, other) {
        return other;
    }
    if is_word_under(table, bases, other, word) {
        return word;
    }
    joined_parts(table, bases, part_of(word), part_of(other))
}

/// The table's classes are those that have numbers, and a hierarchy. It is called for what it promises, and does nothing.
pub(crate) fn have_ground(table: &ClassTable<'_>, bases: &Bases<'_>)
    requires { table.now ≡ bases.now.image }
    ensures { IsGround table.now bases.now }
{
    let _object = table.object();
    let _classes = bases.class_count();
}

/// The same of what words hold.
fn is_part_under(table: &ClassTable<'_>, bases: &Bases<'_>, part: Part, above: Part) -> bool
    requires image { table.now ≡ bases.now.image }
    requires part { IsPart bases.now part }
    requires above { IsPart bases.now above }
    ensures { result ≡ under bases.now.image (type_in bases.now part) (type_in bases.now above) }
{
    match (part, above) {
        (_, Part::Conflict) => true,
        (Part::Zero, Part::Zero | Part::Int | Part::Class(_)) => true,
        (Part::Int, Part::Int) => true,
        (Part::LongLo, Part::LongLo) => true,
        (Part::LongHi, Part::LongHi) => true,
        (Part::Class(class), Part::Class(above)) => is_sub(table, bases, class, above),
        (Part::Uninit(at), Part::Uninit(other)) => at == other,
        (Part::UninitThis, Part::UninitThis) => true,
        _ => false,
    }
}

/// The nearest common superclass of two classes.
fn joined_parts(table: &ClassTable<'_>, bases: &Bases<'_>, part: Part, other: Part) -> u32
    requires image { table.now ≡ bases.now.image }
    requires part { IsPart bases.now part }
    requires other { IsPart bases.now other }
    ensures joined { word_type bases.now result ≡ classes_of_both bases.now.image (type_in bases.now part) (type_in bases.now other) }
    ensures word { IsWord bases.now result }
{
    match (part, other) {
        (Part::Class(class), Part::Class(other)) => {
            bases.word_of_class(common_of(table, bases, class, other))
        }
        _ => word_of(Part::Conflict),
    }
}

/// Whether a class or an array is under another by superclasses, through array components.
#[tactic(auto, unfolding(dv_defs::specs::Order::sub))]
pub fn is_sub(table: &ClassTable<'_>, bases: &Bases<'_>, class: Reference, above: Reference) -> bool
    requires image { table.now ≡ bases.now.image }
    requires class { IsNumbered bases.now class }
    requires above { IsNumbered bases.now above }
    ensures { result ≡ sub bases.now.image (type_of bases.now class) (type_of bases.now above) }
{
    have_ground(table, bases);
    if is_same(table, bases, class, above) {
        return true;
    }
    above.dims <= class.dims
        && is_base_under(
            table,
            bases,
            class.dims - above.dims,
            class.base,
            above.base,
        )
}

/// The nearest common superclass; arrays have one by their components where both are references.
pub fn common_of(
    table: &ClassTable<'_>,
    bases: &Bases<'_>,
    class: Reference,
    other: Reference,
) -> Reference
    requires image { table.now ≡ bases.now.image }
    requires class { IsNumbered bases.now class }
    requires other { IsNumbered bases.now other }
    ensures common { type_of bases.now result ≡ common_super bases.now.image (type_of bases.now class) (type_of bases.now other) }
    ensures numbered { IsNumbered bases.now result }
{
    have_ground(table, bases);
    if is_same(table, bases, class, other) {
        return class;
    }
    let levels = shared_levels(bases, class, other);
    let class = Reference {
        dims: class.dims - levels,
        base: class.base,
    };
    let other = Reference {
        dims: other.dims - levels,
        base: other.base,
    };
    Reference {
        dims: levels,
        base: common_flat(table, bases, class, other),
    }
}

/// Whether both are one class or array.
fn is_same(table: &ClassTable<'_>, bases: &Bases<'_>, class: Reference, other: Reference) -> bool
    requires ground { IsGround table.now bases.now }
    requires class { IsNumbered bases.now class }
    requires other { IsNumbered bases.now other }
    ensures { result ≡ ty_eq (type_of bases.now class) (type_of bases.now other) }
{
    class.dims == other.dims && is_same_base(table, bases, class.base, other.base)
}

/// Whether two numbers are of one base. Only names that the image lacks may have more than one.
fn is_same_base(table: &ClassTable<'_>, bases: &Bases<'_>, base: u32, other: u32) -> bool
    requires ground { IsGround table.now bases.now }
    requires base { base < base_count bases.now }
    requires other { other < base_count bases.now }
    ensures { result ≡ base_eq (base_of bases.now base) (base_of bases.now other) }
{
    if base == other {
        return true;
    }
    let first = 6 + bases.class_count();
    let place = base as usize;
    let place_other = other as usize;
    if place < first || place_other < first {
        return false;
    }
    bases.is_same_more(place - first, place_other - first)
}

/// Whether a base, with so many dimensions over it, is under another that isn't the same.
fn is_base_under(table: &ClassTable<'_>, bases: &Bases<'_>, dims: u8, base: u32, above: u32) -> bool
    requires ground { IsGround table.now bases.now }
    requires base { base < base_count bases.now }
    requires above { above < base_count bases.now }
    ensures { result ≡ under_base bases.now.image (extends bases.now.image) dims (base_of bases.now base) (base_of bases.now above) }
{
    if above == object_base(table, bases) {
        return dims > 0 || base >= 6;
    }
    dims == 0 && is_class_under(table, bases, base, above)
}

/// Whether both are classes of the image, and the one extends the other.
fn is_class_under(table: &ClassTable<'_>, bases: &Bases<'_>, base: u32, above: u32) -> bool
    requires ground { IsGround table.now bases.now }
    requires base { base < base_count bases.now }
    requires above { above < base_count bases.now }
    ensures { result ≡ both_found (extends bases.now.image) (class_of_base bases.now.image (base_of bases.now base)) (class_of_base bases.now.image (base_of bases.now above)) }
{
    match (class_at(table, bases, base), class_at(table, bases, above)) {
        (Some(class), Some(above)) => table.extends(class, above),
        _ => false,
    }
}

/// The class of the image that a base is.
fn class_at(table: &ClassTable<'_>, bases: &Bases<'_>, base: u32) -> Option<usize>
    requires ground { IsGround table.now bases.now }
    requires base { base < base_count bases.now }
    ensures class { result ≡ class_of_base bases.now.image (base_of bases.now base) }
    ensures within { IfSome result (λ c. c < class_count bases.now) }
{
    let place = base as usize;
    if place < 6 || place >= 6 + bases.class_count() {
        return None;
    }
    Some(place - 6)
}

/// The number of Object among the bases.
fn object_base(table: &ClassTable<'_>, bases: &Bases<'_>) -> u32
    requires { IsGround table.now bases.now }
    ensures object { of_base (base_of bases.now result) ≡ object_type }
    ensures within { result < 6 + class_count bases.now }
{
    let object = table.object();
    let _classes = bases.class_count();
    (6 + object) as u32
}

/// How many times the components of both are references, one after another.
fn shared_levels(bases: &Bases<'_>, class: Reference, other: Reference) -> u8
    requires class { IsNumbered bases.now class }
    requires other { IsNumbered bases.now other }
    ensures class { result ≤ depth (type_of bases.now class) }
    ensures other { result ≤ depth (type_of bases.now other) }
    ensures last { (result ≡ depth (type_of bases.now class)) ⊎ (result ≡ depth (type_of bases.now other)) }
{
    let levels = levels_of(bases, class);
    let levels_other = levels_of(bases, other);
    if levels < levels_other {
        levels
    } else {
        levels_other
    }
}

/// How many times its component is a reference, one after another.
fn levels_of(bases: &Bases<'_>, class: Reference) -> u8
    requires { IsNumbered bases.now class }
    ensures { result ≡ depth (type_of bases.now class) }
{
    if class.base >= 6 {
        class.dims
    } else {
        class.dims.saturating_sub(1)
    }
}

/// Where they don't join by components: Object where one is an array.
fn common_flat(table: &ClassTable<'_>, bases: &Bases<'_>, class: Reference, other: Reference) -> u32
    requires ground { IsGround table.now bases.now }
    requires class { IsNumbered bases.now class }
    requires other { IsNumbered bases.now other }
    ensures common { of_base (base_of bases.now result) ≡ flat_common bases.now.image (type_of bases.now class) (type_of bases.now other) }
    ensures within { result < base_count bases.now }
{
    if class.dims > 0 || other.dims > 0 {
        return object_base(table, bases);
    }
    common_class(table, bases, class.base, other.base)
}

/// The nearest class that both are under, Object where one isn't a class of the image.
fn common_class(table: &ClassTable<'_>, bases: &Bases<'_>, base: u32, other: u32) -> u32
    requires ground { IsGround table.now bases.now }
    requires base { base < base_count bases.now }
    requires other { other < base_count bases.now }
    ensures common { of_base (base_of bases.now result) ≡ common_classes bases.now.image (class_of_base bases.now.image (base_of bases.now base)) (class_of_base bases.now.image (base_of bases.now other)) }
    ensures within { result < base_count bases.now }
{
    match (class_at(table, bases, base), class_at(table, bases, other)) {
        (Some(class), Some(other)) => {
            let common = table.common(class, other);
            let _classes = bases.class_count();
            (6 + common) as u32
        }
        _ => object_base(table, bases),
    }
}
