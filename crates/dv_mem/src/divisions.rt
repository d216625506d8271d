// Divisions and remainders (JLS 15.17.2, 15.17.3).
ghost use Rattle.std.specs.Prelude.{◌≡◌, true, Some, IfSome, MatchOption, IsSome, ◌≢◌, pos};
ghost use Rattle.dv_defs.specs.Images.{Image as Linked};
ghost use Rattle.dv_defs.specs.Numbers.{operate32, operate64};
ghost use Rattle.dv_defs.specs.Op.{IntDivide, LongDivide};
ghost use Rattle.dv_defs.specs.Parts.{is_division};
ghost use Rattle.dv_ops.specs.Meaning.{arg_of};
ghost use Rattle.dv_units.specs.Tables.{standard_bin};
ghost use Rattle.dv_words.specs.State.{WordHeap};
ghost use Rattle.dv_words.specs.Stacks.{changed};
ghost use Rattle.law_words.specs.Laws.{ArgFits};
ghost use Rattle.dv_words.specs.Local as local;
ghost use Rattle.dv_words.specs.Mem.{word_mem};
ghost use Rattle.dv_mem.specs.Tops.{Answers, seen, top_frame};

use crate::registers::{int, long, put, put_two};
use dv_defs::{Named, Next};
use dv_frames::Stack;
use dv_num::{div_i32, div_i64, rem_i32, rem_i64};
use dv_ops::Arg;
use dv_optable::Bin;

/// The second number, where it is an int.
fn argument(stack: &Stack, arg: Arg) -> Option<i32>
    ensures number { IfSome result (λ n. n ≡ local.arg_at (top_frame stack.now) (arg_of arg)) }
    ensures fits { ArgFits (arg_of arg) → IsSome result }
{
    match arg {
        Arg::Reg(reg) => Some(int(stack, reg)),
        Arg::Lit(number) => i32::try_from(number).ok(),
    }
}

/// The quotient or the remainder of two ints, none by 0.
fn divided(operation: Bin, x: i32, y: i32) -> Option<i32>
    ensures { is_division (standard_bin operation) ≡ true → MatchOption result (y ≡ pos 0) (λ q. (y ≢ pos 0) × (q ≡ operate32 (standard_bin operation) x y)) }
{
    match operation {
        Bin::Div => div_i32(x, y),
        _ => rem_i32(x, y),
    }
}

/// The quotient or the remainder of two longs, none by 0.
fn divided_long(operation: Bin, x: i64, y: i64) -> Option<i64>
    ensures { is_division (standard_bin operation) ≡ true → MatchOption result (y ≡ pos 0) (λ q. (y ≢ pos 0) × (q ≡ operate64 (standard_bin operation) x y)) }
{
    match operation {
        Bin::Div => div_i64(x, y),
        _ => rem_i64(x, y),
    }
}

/// Writes an int, and goes on at an address.
fn put_int(stack: &mut Stack, next: u32, reg: u16, number: i32)
    ensures { stack.new ≡ changed (λ f. local.put_int (top_frame stack.old) next reg number) stack.old }
{
    put(stack, next, reg, number.cast_unsigned());
}

/// Writes a long, and goes on at an address.
fn put_long(stack: &mut Stack, next: u32, reg: u16, number: i64)
    ensures { stack.new ≡ changed (λ f. local.put_long (top_frame stack.old) next reg number) stack.old }
{
    let bits = number.cast_unsigned();
    let low = (bits % 0x1_0000_0000) as u32;
    let high = (bits / 0x1_0000_0000) as u32;
    put_two(stack, next, reg, low, high);
}

/// div-int, rem-int and their kin.
pub fn divide_ints(stack: &mut Stack, next: u32, operation: Bin, a: u16, b: u16, c: Arg) -> Next
    ensures { (image : Linked) (heap : WordHeap) → is_division (standard_bin operation) ≡ true → ArgFits (arg_of c) →
        Answers result (word_mem (seen image stack.old heap next) (IntDivide (standard_bin operation) a b (arg_of c))) stack.old heap stack.new heap }
{
    let Some(divisor) = argument(stack, c) else {
        return Next::On;
    };
    match divided(operation, int(stack, b), divisor) {
        None => Next::Throw(Named::Arithmetic),
        Some(number) => {
            put_int(stack, next, a, number);
            Next::On
        }
    }
}

/// div-long, rem-long and their kin.
pub fn divide_longs(stack: &mut Stack, next: u32, operation: Bin, a: u16, b: u16, c: u16) -> Next
    ensures { (image : Linked) (heap : WordHeap) → is_division (standard_bin operation) ≡ true →
        Answers result (word_mem (seen image stack.old heap next) (LongDivide (standard_bin operation) a b c)) stack.old heap stack.new heap }
{
    match divided_long(operation, long(stack, b), long(stack, c)) {
        None => Next::Throw(Named::Arithmetic),
        Some(number) => {
            put_long(stack, next, a, number);
            Next::On
        }
    }
}
