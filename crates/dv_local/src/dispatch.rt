// Local instructions by their opcodes (AOSP, "Dalvik bytecode format").
ghost use Rattle.std.specs.Prelude.{◌^◌, ◌<◌};
ghost use Rattle.dv_frames.specs.Heads.{frame};
ghost use Rattle.dv_local.specs.Spelled.{SteppedHere};

use crate::here::Here;
use crate::spelled_arithmetic::{
    compare_23x, complement_long_12x, int_12x, int_to_long_12x, ints_12x, ints_22b, ints_22s,
    ints_23x, long_to_int_12x, longs_12x, longs_23x, negate_long_12x, shift_12x, shift_23x,
};
use crate::spelled_branches::{
    goto_10t, goto_20t, goto_30t, if_21t, if_22t, packed_31t, sparse_31t,
};
use crate::spelled_moves::{
    caught_11x, const_11n, const_21h, const_21s, const_31i, move_12x, move_22x, move_32x, nop_10x,
    result_11x, wide_21h, wide_21s, wide_31i, wide_51l,
};
use dv_frames::Head;
use dv_optable::{Bin, Test, Unary, Width};

macro_rules! done {
    ($step:expr) => {{
        $step;
        true
    }};
}

/// Does the instruction here, where it is a local one; else nothing changes.
#[inline(always)]
pub fn step_here(here: &Here<'_>, words: &mut [u32], head: &mut Head) -> bool
    requires { here.now.at < 2 ^ 16 }
    ensures { SteppedHere here.now result (frame head.old words.old) (frame head.new words.new) }
{
    match here.first % 256 {
        0x00 => done!(nop_10x(0x00, here, words, head)),
        0x01 => done!(move_12x(0x01, Width::Narrow, here, words, head)),
        0x02 => done!(move_22x(0x02, Width::Narrow, here, words, head)),
        0x03 => done!(move_32x(0x03, Width::Narrow, here, words, head)),
        0x04 => done!(move_12x(0x04, Width::Wide, here, words, head)),
        0x05 => done!(move_22x(0x05, Width::Wide, here, words, head)),
        0x06 => done!(move_32x(0x06, Width::Wide, here, words, head)),
        0x07 => done!(move_12x(0x07, Width::Reference, here, words, head)),
        0x08 => done!(move_22x(0x08, Width::Reference, here, words, head)),
        0x09 => done!(move_32x(0x09, Width::Reference, here, words, head)),
        0x0a => done!(result_11x(0x0a, Width::Narrow, here, words, head)),
        0x0b => done!(result_11x(0x0b, Width::Wide, here, words, head)),
        0x0c => done!(result_11x(0x0c, Width::Reference, here, words, head)),
        0x0d => done!(caught_11x(0x0d, here, words, head)),
        0x12 => done!(const_11n(0x12, here, words, head)),
        0x13 => done!(const_21s(0x13, here, words, head)),
        0x14 => done!(const_31i(0x14, here, words, head)),
        0x15 => done!(const_21h(0x15, here, words, head)),
        0x16 => done!(wide_21s(0x16, here, words, head)),
        0x17 => done!(wide_31i(0x17, here, words, head)),
        0x18 => done!(wide_51l(0x18, here, words, head)),
        0x19 => done!(wide_21h(0x19, here, words, head)),
        0x28 => done!(goto_10t(0x28, here, words, head)),
        0x29 => done!(goto_20t(0x29, here, words, head)),
        0x2a => done!(goto_30t(0x2a, here, words, head)),
        0x2b => done!(packed_31t(0x2b, here, words, head)),
        0x2c => done!(sparse_31t(0x2c, here, words, head)),
        0x31 => done!(compare_23x(0x31, here, words, head)),
        0x32 => done!(if_22t(0x32, Test::Eq, here, words, head)),
        0x33 => done!(if_22t(0x33, Test::Ne, here, words, head)),
        0x34 => done!(if_22t(0x34, Test::Lt, here, words, head)),
        0x35 => done!(if_22t(0x35, Test::Ge, here, words, head)),
        0x36 => done!(if_22t(0x36, Test::Gt, here, words, head)),
        0x37 => done!(if_22t(0x37, Test::Le, here, words, head)),
        0x38 => done!(if_21t(0x38, Test::Eq, here, words, head)),
        0x39 => done!(if_21t(0x39, Test::Ne, here, words, head)),
        0x3a => done!(if_21t(0x3a, Test::Lt, here, words, head)),
        0x3b => done!(if_21t(0x3b, Test::Ge, here, words, head)),
        0x3c => done!(if_21t(0x3c, Test::Gt, here, words, head)),
        0x3d => done!(if_21t(0x3d, Test::Le, here, words, head)),
        0x7b => done!(int_12x(0x7b, Unary::Neg, here, words, head)),
        0x7c => done!(int_12x(0x7c, Unary::Not, here, words, head)),
        0x7d => done!(negate_long_12x(0x7d, here, words, head)),
        0x7e => done!(complement_long_12x(0x7e, here, words, head)),
        0x81 => done!(int_to_long_12x(0x81, here, words, head)),
        0x84 => done!(long_to_int_12x(0x84, here, words, head)),
        0x8d => done!(int_12x(0x8d, Unary::ToByte, here, words, head)),
        0x8e => done!(int_12x(0x8e, Unary::ToChar, here, words, head)),
        0x8f => done!(int_12x(0x8f, Unary::ToShort, here, words, head)),
        0x90 => done!(ints_23x(0x90, Bin::Add, here, words, head)),
        0x91 => done!(ints_23x(0x91, Bin::Sub, here, words, head)),
        0x92 => done!(ints_23x(0x92, Bin::Mul, here, words, head)),
        0x95 => done!(ints_23x(0x95, Bin::And, here, words, head)),
        0x96 => done!(ints_23x(0x96, Bin::Or, here, words, head)),
        0x97 => done!(ints_23x(0x97, Bin::Xor, here, words, head)),
        0x98 => done!(ints_23x(0x98, Bin::Shl, here, words, head)),
        0x99 => done!(ints_23x(0x99, Bin::Shr, here, words, head)),
        0x9a => done!(ints_23x(0x9a, Bin::Ushr, here, words, head)),
        0x9b => done!(longs_23x(0x9b, Bin::Add, here, words, head)),
        0x9c => done!(longs_23x(0x9c, Bin::Sub, here, words, head)),
        0x9d => done!(longs_23x(0x9d, Bin::Mul, here, words, head)),
        0xa0 => done!(longs_23x(0xa0, Bin::And, here, words, head)),
        0xa1 => done!(longs_23x(0xa1, Bin::Or, here, words, head)),
        0xa2 => done!(longs_23x(0xa2, Bin::Xor, here, words, head)),
        0xa3 => done!(shift_23x(0xa3, Bin::Shl, here, words, head)),
        0xa4 => done!(shift_23x(0xa4, Bin::Shr, here, words, head)),
        0xa5 => done!(shift_23x(0xa5, Bin::Ushr, here, words, head)),
        0xb0 => done!(ints_12x(0xb0, Bin::Add, here, words, head)),
        0xb1 => done!(ints_12x(0xb1, Bin::Sub, here, words, head)),
        0xb2 => done!(ints_12x(0xb2, Bin::Mul, here, words, head)),
        0xb5 => done!(ints_12x(0xb5, Bin::And, here, words, head)),
        0xb6 => done!(ints_12x(0xb6, Bin::Or, here, words, head)),
        0xb7 => done!(ints_12x(0xb7, Bin::Xor, here, words, head)),
        0xb8 => done!(ints_12x(0xb8, Bin::Shl, here, words, head)),
        0xb9 => done!(ints_12x(0xb9, Bin::Shr, here, words, head)),
        0xba => done!(ints_12x(0xba, Bin::Ushr, here, words, head)),
        0xbb => done!(longs_12x(0xbb, Bin::Add, here, words, head)),
        0xbc => done!(longs_12x(0xbc, Bin::Sub, here, words, head)),
        0xbd => done!(longs_12x(0xbd, Bin::Mul, here, words, head)),
        0xc0 => done!(longs_12x(0xc0, Bin::And, here, words, head)),
        0xc1 => done!(longs_12x(0xc1, Bin::Or, here, words, head)),
        0xc2 => done!(longs_12x(0xc2, Bin::Xor, here, words, head)),
        0xc3 => done!(shift_12x(0xc3, Bin::Shl, here, words, head)),
        0xc4 => done!(shift_12x(0xc4, Bin::Shr, here, words, head)),
        0xc5 => done!(shift_12x(0xc5, Bin::Ushr, here, words, head)),
        0xd0 => done!(ints_22s(0xd0, Bin::Add, here, words, head)),
        0xd1 => done!(ints_22s(0xd1, Bin::Rsub, here, words, head)),
        0xd2 => done!(ints_22s(0xd2, Bin::Mul, here, words, head)),
        0xd5 => done!(ints_22s(0xd5, Bin::And, here, words, head)),
        0xd6 => done!(ints_22s(0xd6, Bin::Or, here, words, head)),
        0xd7 => done!(ints_22s(0xd7, Bin::Xor, here, words, head)),
        0xd8 => done!(ints_22b(0xd8, Bin::Add, here, words, head)),
        0xd9 => done!(ints_22b(0xd9, Bin::Rsub, here, words, head)),
        0xda => done!(ints_22b(0xda, Bin::Mul, here, words, head)),
        0xdd => done!(ints_22b(0xdd, Bin::And, here, words, head)),
        0xde => done!(ints_22b(0xde, Bin::Or, here, words, head)),
        0xdf => done!(ints_22b(0xdf, Bin::Xor, here, words, head)),
        0xe0 => done!(ints_22b(0xe0, Bin::Shl, here, words, head)),
        0xe1 => done!(ints_22b(0xe1, Bin::Shr, here, words, head)),
        0xe2 => done!(ints_22b(0xe2, Bin::Ushr, here, words, head)),
        _ => false,
    }
}
