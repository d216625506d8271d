// Rows taken by hand from the opcode page. Which opcodes have none is told by `cases/verifying`, and all names by `cases/reading`.
use dv_optable::{
    Bin, Call, Family, Format, Suffix, Test, Unary, Width, kind_of, name_to_opcode, row_of,
};

// The opcode, its name, format and family, whether it throws, and whether it is local.
type Expected = (u8, &'static str, Format, Family, bool, bool);

#[rattlefmt::skip]
static EXPECTED: [Expected; 43] = [
    (0x00, "nop", Format::F10x, Family::Nop, false, true),
    (0x01, "move", Format::F12x, Family::Move(Width::Narrow), false, true),
    (0x05, "move-wide/from16", Format::F22x, Family::Move(Width::Wide), false, true),
    (0x09, "move-object/16", Format::F32x, Family::Move(Width::Reference), false, true),
    (0x0c, "move-result-object", Format::F11x, Family::MoveResult(Width::Reference), false, true),
    (0x0d, "move-exception", Format::F11x, Family::MoveException, false, true),
    (0x0e, "return-void", Format::F10x, Family::ReturnVoid, false, false),
    (0x0f, "return", Format::F11x, Family::Return(Width::Narrow), false, false),
    (0x11, "return-object", Format::F11x, Family::Return(Width::Reference), false, false),
    (0x12, "const/4", Format::F11n, Family::Const, false, true),
    (0x15, "const/high16", Format::F21h, Family::Const, false, true),
    (0x18, "const-wide", Format::F51l, Family::ConstWide, false, true),
    (0x1b, "const-string/jumbo", Format::F31c, Family::ConstString, true, false),
    (0x20, "instance-of", Format::F22c, Family::InstanceOf, false, false),
    (0x25, "filled-new-array/range", Format::F3rc, Family::FilledNewArray, true, false),
    (0x27, "throw", Format::F11x, Family::Throw, true, false),
    (0x29, "goto/16", Format::F20t, Family::Goto, false, true),
    (0x2a, "goto/32", Format::F30t, Family::Goto, false, true),
    (0x2c, "sparse-switch", Format::F31t, Family::SparseSwitch, false, true),
    (0x31, "cmp-long", Format::F23x, Family::CmpLong, false, true),
    (0x35, "if-ge", Format::F22t, Family::If(Test::Ge), false, true),
    (0x37, "if-le", Format::F22t, Family::If(Test::Le), false, true),
    (0x38, "if-eqz", Format::F21t, Family::IfZero(Test::Eq), false, true),
    (0x44, "aget", Format::F23x, Family::ArrayGet(Suffix::Int), true, false),
    (0x47, "aget-boolean", Format::F23x, Family::ArrayGet(Suffix::Boolean), true, false),
    (0x51, "aput-short", Format::F23x, Family::ArrayPut(Suffix::Short), true, false),
    (0x5b, "iput-object", Format::F22c, Family::FieldPut(Suffix::Object), true, false),
    (0x63, "sget-boolean", Format::F21c, Family::StaticGet(Suffix::Boolean), true, false),
    (0x6e, "invoke-virtual", Format::F35c, Family::Invoke(Call::Virtual), true, false),
    (0x75, "invoke-super/range", Format::F3rc, Family::Invoke(Call::Super), true, false),
    (0x78, "invoke-interface/range", Format::F3rc, Family::Invoke(Call::Interface), true, false),
    (0x7e, "not-long", Format::F12x, Family::LongUnary(Unary::Not), false, true),
    (0x84, "long-to-int", Format::F12x, Family::LongToInt, false, true),
    (0x8f, "int-to-short", Format::F12x, Family::IntUnary(Unary::ToShort), false, true),
    (0x93, "div-int", Format::F23x, Family::IntBinary(Bin::Div), true, false),
    (0xa5, "ushr-long", Format::F23x, Family::LongBinary(Bin::Ushr), false, true),
    (0xb0, "add-int/2addr", Format::F12x, Family::IntTwo(Bin::Add), false, true),
    (0xbf, "rem-long/2addr", Format::F12x, Family::LongTwo(Bin::Rem), true, false),
    (0xc3, "shl-long/2addr", Format::F12x, Family::LongTwo(Bin::Shl), false, true),
    (0xd1, "rsub-int", Format::F22s, Family::IntLiteral(Bin::Rsub), false, true),
    (0xd4, "rem-int/lit16", Format::F22s, Family::IntLiteral(Bin::Rem), true, false),
    (0xe1, "shr-int/lit8", Format::F22b, Family::IntLiteral(Bin::Shr), false, true),
    (0xe2, "ushr-int/lit8", Format::F22b, Family::IntLiteral(Bin::Ushr), false, true),
];

#[test]
fn looks_rows_up(rt: HostRuntime) {
    for (op, name, format, family, throws, local) in &EXPECTED {
        let row = row_of(*op).expect(&rt, "a row");
        assert_eq!(rt; row.name, *name);
        assert_eq!(rt; row.format, *format);
        assert_eq!(rt; (row.throws, row.local), (*throws, *local));
        assert_eq!(rt; kind_of(*op), Some(*family));
        assert_eq!(rt; name_to_opcode(name.as_bytes()), Some(*op));
    }
}

static OTHERS: [&str; 8] = [
    "",
    "mov",
    "movee",
    "const/",
    "NOP",
    "add-float",
    "rsub-int/lit16",
    "shl-int/lit16",
];

#[test]
fn reads_no_other_name(rt: HostRuntime) {
    for name in &OTHERS {
        assert_eq!(rt; name_to_opcode(name.as_bytes()), None);
    }
}
