// Texts, ids, types and references to members.
ghost use Rattle.std.specs.Prelude.{◌≡◌, nat_eq, Some, IfOk};
ghost use Rattle.std.specs.Cmp.{partial_equiv_from_equiv};
ghost use Rattle.std.specs.Cmp.Lexicographic.{pointwise, slice_cmp, nat_list_cmp_total, nat_list_eq_equiv, texts_po, texts_ties};
ghost use Rattle.std.specs.Ordering.{nat_cmp};
ghost use Rattle.std.specs.Hash as fed;
ghost use Rattle.std.specs.Cmp.Rules.{hashing};
ghost use Rattle.std.proofs.Common.{refl, rules};

use crate::Seq;
use std::alloc::AllocError;
use std::cmp::Ordering;
use std::fmt;
use std::hash::{Hash, Hasher};
use std::marker::Model;
use std::sync::Arc;

/// Bytes of a text, mostly UTF-8. A clone shares them, and takes no memory.
#[derive(Drop)]
pub struct Text {
    bytes: Arc<Seq<u8>>,
}

impl Model for Text {
    ghost use Rattle.std.specs.Prelude.{List, ℕ};
    ghost use Rattle.std.specs.Arc.{arc_value};

    ghost Value = { List ℕ };

    ghost view = { λ t. arc_value t.bytes };
}

impl Text {
    /// The text of these bytes.
    ///
    /// # Errors
    ///
    /// Want of memory.
    pub fn of(bytes: Vec<u8>) -> Result<Text, AllocError>
        ensures { IfOk result (λ t. t ≡ bytes.items) }
    {
        let alloc = *bytes.allocator();
        let bytes = Arc::new(alloc, Seq::of(bytes))?;
        Ok(Text { bytes })
    }

    /// The text's bytes.
    pub fn bytes(&self) -> &[u8]
        ensures { result.now ≡ self.now }
    {
        self.bytes.items()
    }
}

impl Clone for Text {
    ghost is_clone = { λ x y. y ≡ x };

    fn clone(&self) -> Result<Text, AllocError> {
        let bytes = self.bytes.clone()?;
        Ok(Text { bytes })
    }
}

impl PartialEq for Text {
    ghost eq = { pointwise nat_eq };

    ghost laws = { partial_equiv_from_equiv nat_list_eq_equiv };

    fn eq(&self, other: &Text) -> bool {
        self.bytes() == other.bytes()
    }
}

impl Eq for Text {
    ghost laws = { nat_list_eq_equiv };
}

impl PartialOrd for Text {
    ghost partial_cmp = { λ x y. Some (slice_cmp nat_cmp x y) };

    ghost laws = { texts_po };

    fn partial_cmp(&self, other: &Text) -> Option<Ordering> {
        Some(self.cmp(other))
    }
}

impl Ord for Text {
    ghost cmp = { slice_cmp nat_cmp };

    ghost total = { nat_list_cmp_total };

    ghost matches_partial_cmp = { λ x y. refl };

    ghost matches_eq = { texts_ties };

    fn cmp(&self, other: &Text) -> Ordering {
        self.bytes().cmp(other.bytes())
    }
}

impl Hash for Text {
    ghost hash_input = { fed.slice fed.u8 };

    ghost respects_eq = { Prim.search (hashing, rules) };

    fn hash<H: Hasher>(&self, state: &mut H) {
        self.bytes().hash(state);
    }
}

impl fmt::Debug for Text {
    fn fmt<W: fmt::Write>(&self, f: &mut fmt::Formatter<W>) -> fmt::Result {
        self.bytes().fmt(f)
    }
}

/// Units of 16 bits of a guest string.
#[derive(Clone, PartialEq, Eq, PartialOrd, Ord, Hash, Debug, Drop)]
pub struct Chars {
    units: Seq<u16>,
}

impl Model for Chars {
    ghost use Rattle.std.specs.Prelude.{List, ℕ};

    ghost Value = { List ℕ };

    ghost view = { λ t. t.units };

    ghost inverse = { λ b. record { units = b } };
}

impl Chars {
    /// The string of these UTF-16 units.
    pub fn of(units: Vec<u16>) -> Chars
        ensures { result ≡ units.items }
    {
        Chars {
            units: Seq::of(units),
        }
    }

    /// The string's UTF-16 units.
    pub fn units(&self) -> &[u16]
        ensures { result.now ≡ self.now }
    {
        self.units.items()
    }
}

/// The place of a class in the image.
#[derive(Clone, Copy, PartialEq, Eq, PartialOrd, Ord, Hash, Debug)]
pub struct ClassId(pub u32);

/// The place of a method in the image.
#[derive(Clone, Copy, PartialEq, Eq, Debug)]
pub struct MethodId(pub u32);

/// The place of a field in the image.
#[derive(Clone, Copy, PartialEq, Eq)]
pub struct FieldId(pub u32);

/// A type without dimensions: the primitive types without floats, and a class by its descriptor.
#[derive(PartialEq, Eq, PartialOrd, Ord, Hash, Debug, Drop)]
pub enum Base {
    Z,
    B,
    C,
    S,
    I,
    J,
    Class(Text),
}

impl Clone for Base {
    ghost is_clone = { λ x y. y ≡ x };

    fn clone(&self) -> Result<Base, AllocError> {
        match self {
            Base::Z => Ok(Base::Z),
            Base::B => Ok(Base::B),
            Base::C => Ok(Base::C),
            Base::S => Ok(Base::S),
            Base::I => Ok(Base::I),
            Base::J => Ok(Base::J),
            Base::Class(x) => Ok(Base::Class(x.clone()?)),
        }
    }
}

impl Base {
    ghost use Rattle.dv_defs.specs.Field.{number_fits};

    /// Whether the number is one of this primitive type's.
    pub fn holds(&self, n: i64) -> bool
        ensures { result ≡ number_fits self.now n }
    {
        match self {
            Base::Z => 0 <= n && n <= 1,
            Base::B => -128 <= n && n <= 127,
            Base::C => 0 <= n && n <= 65535,
            Base::S => -32768 <= n && n <= 32767,
            Base::I => -2147483648 <= n && n <= 2147483647,
            Base::J => true,
            Base::Class(_) => false,
        }
    }
}

/// A type: an array where `dims`, its number of dimensions, isn't 0.
#[derive(PartialEq, Eq, PartialOrd, Ord, Hash, Debug, Drop)]
pub struct Ty {
    pub dims: u8,
    pub base: Base,
}

impl Clone for Ty {
    ghost is_clone = { λ x y. y ≡ x };

    fn clone(&self) -> Result<Ty, AllocError> {
        Ok(Ty {
            dims: self.dims,
            base: self.base.clone()?,
        })
    }
}

impl Ty {
    ghost use Rattle.dv_defs.specs.Types.{is_class, is_reference};

    /// Whether the type is a class or an array.
    pub fn is_reference(&self) -> bool
        ensures { result ≡ is_reference self.now }
    {
        self.dims > 0 || matches!(self.base, Base::Class(_))
    }

    /// Whether the type is the class of this descriptor.
    pub fn is_class(&self, name: &[u8]) -> bool
        ensures { result ≡ is_class name.now self.now }
    {
        match &self.base {
            Base::Class(own) => self.dims == 0 && own.bytes() == name,
            _ => false,
        }
    }
}

/// The types of a method's parameters, and of its result where it has one.
#[derive(PartialEq, Eq, PartialOrd, Ord, Hash, Debug, Drop)]
pub struct Proto {
    pub params: Seq<Ty>,
    pub ret: Option<Ty>,
}

impl Clone for Proto {
    ghost is_clone = { λ x y. y ≡ x };

    fn clone(&self) -> Result<Proto, AllocError> {
        Ok(Proto {
            params: self.params.clone()?,
            ret: self.ret.clone()?,
        })
    }
}

/// A field as an instruction names it.
#[derive(PartialEq, Eq, PartialOrd, Ord, Hash, Debug, Drop)]
pub struct FieldRef {
    pub class: Ty,
    pub name: Text,
    pub ty: Ty,
}

impl Clone for FieldRef {
    ghost is_clone = { λ x y. y ≡ x };

    fn clone(&self) -> Result<FieldRef, AllocError> {
        Ok(FieldRef {
            class: self.class.clone()?,
            name: self.name.clone()?,
            ty: self.ty.clone()?,
        })
    }
}

/// A method as an instruction names it.
#[derive(PartialEq, Eq, PartialOrd, Ord, Hash, Debug, Drop)]
pub struct MethodRef {
    pub class: Ty,
    pub name: Text,
    pub proto: Proto,
}

impl Clone for MethodRef {
    ghost is_clone = { λ x y. y ≡ x };

    fn clone(&self) -> Result<MethodRef, AllocError> {
        Ok(MethodRef {
            class: self.class.clone()?,
            name: self.name.clone()?,
            proto: self.proto.clone()?,
        })
    }
}
