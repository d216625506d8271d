//! The families of instructions.

ghost use Rattle.std.specs.Prelude.{◌≡◌};
ghost use Rattle.dv_optable.specs.Families.{is_division, can_throw, is_local};

/// What a move or a return carries: one word, a pair of words, or a reference.
#[derive(Clone, Copy, PartialEq, Eq, Debug)]
pub enum Width {
    Narrow,
    Wide,
    Reference,
}

/// The test of an if instruction.
#[derive(Clone, Copy, PartialEq, Eq, Debug)]
pub enum Test {
    Eq,
    Ne,
    Lt,
    Ge,
    Gt,
    Le,
}

/// The suffix of an array or field operation; `Int` is the plain form.
#[derive(Clone, Copy, PartialEq, Eq, Debug)]
pub enum Suffix {
    Int,
    Long,
    Object,
    Boolean,
    Byte,
    Char,
    Short,
}

/// The kind of an invoke.
#[derive(Clone, Copy, PartialEq, Eq, Debug)]
pub enum Call {
    Virtual,
    Super,
    Direct,
    Static,
    Interface,
}

/// A binary operation; `Rsub` is that of the rsub forms, with the operands exchanged.
#[derive(Clone, Copy, PartialEq, Eq, Debug)]
pub enum Bin {
    Add,
    Sub,
    Rsub,
    Mul,
    Div,
    Rem,
    And,
    Or,
    Xor,
    Shl,
    Shr,
    Ushr,
}

/// A unary operation, or a narrowing conversion.
#[derive(Clone, Copy, PartialEq, Eq, Debug)]
pub enum Unary {
    Neg,
    Not,
    ToByte,
    ToChar,
    ToShort,
}

/// A family of instructions: those that do the same on the same operands, whatever their format.
#[derive(Clone, Copy, PartialEq, Eq, Debug)]
pub enum Family {
    Nop,
    Move(Width),
    MoveResult(Width),
    MoveException,
    ReturnVoid,
    Return(Width),
    Const,
    ConstWide,
    ConstString,
    ConstClass,
    MonitorEnter,
    MonitorExit,
    CheckCast,
    InstanceOf,
    ArrayLength,
    NewInstance,
    NewArray,
    FilledNewArray,
    FillArrayData,
    Throw,
    Goto,
    PackedSwitch,
    SparseSwitch,
    CmpLong,
    If(Test),
    IfZero(Test),
    ArrayGet(Suffix),
    ArrayPut(Suffix),
    FieldGet(Suffix),
    FieldPut(Suffix),
    StaticGet(Suffix),
    StaticPut(Suffix),
    Invoke(Call),
    IntUnary(Unary),
    LongUnary(Unary),
    IntToLong,
    LongToInt,
    IntBinary(Bin),
    LongBinary(Bin),
    /// The /2addr form.
    IntTwo(Bin),
    /// The /2addr form.
    LongTwo(Bin),
    /// With a literal of 16 or 8 bits.
    IntLiteral(Bin),
}

impl Bin {
    /// Whether it is a division or a remainder.
    pub fn is_division(self) -> bool
        ensures { result ≡ is_division self }
    {
        matches!(self, Bin::Div | Bin::Rem)
    }
}

impl Family {
    /// Whether an instruction of the family can throw. Unlike in Dalvik an instance-of never does.
    pub fn can_throw(self) -> bool
        ensures { result ≡ can_throw self }
    {
        match self {
            Family::ConstString
            | Family::ConstClass
            | Family::MonitorEnter
            | Family::MonitorExit
            | Family::CheckCast
            | Family::ArrayLength
            | Family::NewInstance
            | Family::NewArray
            | Family::FilledNewArray
            | Family::FillArrayData
            | Family::Throw
            | Family::ArrayGet(_)
            | Family::ArrayPut(_)
            | Family::FieldGet(_)
            | Family::FieldPut(_)
            | Family::StaticGet(_)
            | Family::StaticPut(_)
            | Family::Invoke(_) => true,
            Family::IntBinary(operation)
            | Family::LongBinary(operation)
            | Family::IntTwo(operation)
            | Family::LongTwo(operation)
            | Family::IntLiteral(operation) => operation.is_division(),
            Family::Nop
            | Family::Move(_)
            | Family::MoveResult(_)
            | Family::MoveException
            | Family::ReturnVoid
            | Family::Return(_)
            | Family::Const
            | Family::ConstWide
            | Family::Goto
            | Family::PackedSwitch
            | Family::SparseSwitch
            | Family::CmpLong
            | Family::If(_)
            | Family::IfZero(_)
            | Family::IntUnary(_)
            | Family::LongUnary(_)
            | Family::IntToLong
            | Family::LongToInt => false,
            // Its class was found before the program runs.
            Family::InstanceOf => false,
        }
    }

    /// Whether an instruction of the family concerns its own frame alone: it can't throw, and is no
    /// return and no instance-of.
    pub fn is_local(self) -> bool
        ensures { result ≡ is_local self }
    {
        match self {
            Family::InstanceOf | Family::ReturnVoid | Family::Return(_) => false,
            _ => !self.can_throw(),
        }
    }
}
