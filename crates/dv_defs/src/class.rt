// Definitions of classes and of their members.
ghost use Rattle.std.specs.Prelude.{◌≡◌};

use crate::{Body, Chars, Flag, Proto, Seq, Text, Ty};
use std::marker::Model;

/// The value that a static field is defined with. A boolean or a character is a number.
#[derive(PartialEq, Eq, Drop)]
pub enum Init {
    Absent,
    Num(i64),
    Str(Chars),
    Null,
}

const STRING: &[u8] = b"Ljava/lang/String;";

const OBJECT: &[u8] = b"Ljava/lang/Object;";

impl Init {
    ghost use Rattle.dv_defs.specs.Field.{value_fits, may_stand};

    /// Whether the value fits a field of this type.
    pub fn fits(&self, ty: &Ty) -> bool
        ensures { result ≡ value_fits self.now ty.now }
    {
        match self {
            Init::Absent => true,
            Init::Num(n) => ty.dims == 0 && ty.base.holds(*n),
            Init::Str(_) => ty.is_class(STRING) || ty.is_class(OBJECT),
            Init::Null => ty.is_reference(),
        }
    }

    /// Whether a field of this type with these flags may be defined with the value.
    pub fn may_stand(&self, ty: &Ty, flags: u32) -> bool
        ensures { result ≡ may_stand self.now ty.now flags }
    {
        match self {
            Init::Absent => true,
            value => Flag::Static.is_in(flags) && value.fits(ty),
        }
    }
}

/// A field as a class declares it. It has a value only where it is static and the value fits its type.
#[derive(PartialEq, Eq, Drop)]
pub struct FieldDef {
    pub name: Text,
    pub ty: Ty,
    pub flags: u32,
    pub init: Init,
}

impl Model for FieldDef {
    ghost use Rattle.std.specs.Prelude.{IsTrue};
    ghost use Rattle.dv_defs.specs.Field.{FieldValue, may_stand};

    ghost Value = { FieldValue };

    ghost view = { λ f. record { name = f.name; ty = f.ty; flags = f.flags; init = f.init } };

    ghost invariant = { λ f. IsTrue (may_stand f.init f.ty f.flags) };

    ghost inverse = { λ f. record { name = f.name; ty = f.ty; flags = f.flags; init = f.init } };
}

/// A method as a class declares it. A native or abstract one has no body.
#[derive(PartialEq, Eq, Drop)]
pub struct MethodDef {
    pub name: Text,
    pub proto: Proto,
    pub flags: u32,
    pub body: Option<Body>,
}

/// A class as a text declares it: descriptors of the class, of its superclass and interfaces, its members,
/// and the number of the line that begins it. Only Object has no superclass.
#[derive(PartialEq, Eq, Drop)]
pub struct ClassDef {
    pub name: Text,
    pub parent: Option<Text>,
    pub interfaces: Seq<Text>,
    pub flags: u32,
    pub fields: Seq<FieldDef>,
    pub methods: Seq<MethodDef>,
    pub line: u32,
}
