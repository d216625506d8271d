// The flags of classes, fields and methods.
ghost use Rattle.std.specs.Prelude.{◌≡◌, ◌^◌};

/// A flag of a class, a field or a method, in the order in which flags are printed.
/// In a set of flags, a `u32`, a flag is the bit of its place in this order.
#[derive(Clone, Copy, PartialEq, Eq)]
pub enum Flag {
    Public,
    Private,
    Protected,
    Static,
    Final,
    Synchronized,
    Volatile,
    Bridge,
    Transient,
    Varargs,
    Native,
    Interface,
    Abstract,
    Strictfp,
    Synthetic,
    Annotation,
    Enum,
    Constructor,
    DeclaredSynchronized,
}

impl Flag {
    ghost use Rattle.dv_defs.specs.Flags.{bit_of, has_flag};

    /// The set of this flag alone.
    pub fn bit(self) -> u32
        ensures { result ≡ 2 ^ bit_of self }
    {
        1 << self as u32
    }

    /// Whether the flag is among these flags.
    pub fn is_in(self, flags: u32) -> bool
        ensures { result ≡ has_flag flags self }
    {
        (flags >> self as u32) % 2 == 1
    }
}
