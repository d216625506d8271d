// What an operation touches, and the class that it needs.
ghost use Rattle.std.specs.Prelude.{◌≡◌, ℕ, option_map};
ghost use Rattle.dv_defs.specs.Op.{Code, is_local, needs};
ghost use Rattle.dv_ops.specs.Meaning.{meant};

use dv_defs::ClassId;
use dv_ops::Op;
use dv_optable::Call;

/// Whether an operation touches its frame alone.
pub fn is_local(op: &Op<'_>) -> bool
    ensures { (code : Code) (at : ℕ) → result ≡ is_local (meant code at op.now) }
{
    matches!(
        op,
        Op::Nop
            | Op::MoveInt(..)
            | Op::MoveLong(..)
            | Op::MoveObject(..)
            | Op::ResultInt(_)
            | Op::ResultLong(_)
            | Op::ResultObject(_)
            | Op::TakeCaught(_)
            | Op::Const(..)
            | Op::ConstLong(..)
            | Op::IntUnary(..)
            | Op::LongUnary(..)
            | Op::IntToLong(..)
            | Op::LongToInt(..)
            | Op::IntOp(..)
            | Op::LongOp(..)
            | Op::LongShift(..)
            | Op::CompareLong(..)
            | Op::Goto(_)
            | Op::IfBoth(..)
            | Op::IfZero(..)
            | Op::Switch(..)
    )
}

/// The class that an operation needs initialised (JLS 12.4.1).
pub fn needs(op: &Op<'_>) -> Option<ClassId>
    ensures { (code : Code) (at : ℕ) → option_map (λ c. c.0) result ≡ needs (meant code at op.now) }
{
    match op {
        Op::New(_, class) => Some(*class),
        Op::StaticGet(_, _, field) => Some(field.info.class),
        Op::StaticPut(_, _, field) => Some(field.info.class),
        Op::Invoke(Call::Static, _, method) => Some(method.info.class),
        _ => None,
    }
}
