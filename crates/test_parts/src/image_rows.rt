// Programs, and what the rules of Java say of them that no run shows.
use dv_defs::{ClassId, FieldId, MethodId, Select};

// The class of an object, the method that is called, and what is selected.
pub type Landing = (ClassId, MethodId, Select);

// A class, the fields of an object, and the methods that calls on it may land on: each list begins with the superclass's places.
pub type Shape = (ClassId, &'static [FieldId], &'static [MethodId]);

// Classes under one another. A private method of the name doesn't override.
pub const CALLS_TEXT: &str = ".class LA;
.super Ljava/lang/Object;
.method f()V
.registers 1
return-void
.end method
.method g()V
.registers 1
return-void
.end method
.method private h()V
.registers 1
return-void
.end method
.method static s()V
.registers 1
return-void
.end method
.method <init>()V
.registers 1
return-void
.end method
.class LB;
.super LA;
.method private f()V
.registers 1
return-void
.end method
.method h()V
.registers 1
return-void
.end method
.method g()V
.registers 1
return-void
.end method
.class LC;
.super LB;
.method f()V
.registers 1
return-void
.end method
.method static g()V
.registers 1
return-void
.end method
.class LD;
.super LC;
.method h()V
.registers 1
return-void
.end method
";

// The boot classes are numbered first, and their methods.
const OBJECT_CLASS: ClassId = ClassId(0);

const THREAD_CLASS: ClassId = ClassId(3);

const STRING_CLASS: ClassId = ClassId(4);

const SYSTEM_CLASS: ClassId = ClassId(6);

const EQUALS: MethodId = MethodId(1);

const WAIT: MethodId = MethodId(2);

const NOTIFY: MethodId = MethodId(3);

const NOTIFY_ALL: MethodId = MethodId(4);

const THREAD_RUN: MethodId = MethodId(8);

const THREAD_START: MethodId = MethodId(9);

const THREAD_JOIN: MethodId = MethodId(10);

const STRING_LENGTH: MethodId = MethodId(12);

const STRING_CHAR_AT: MethodId = MethodId(13);

const STRING_EQUALS: MethodId = MethodId(14);

const STRING_CONCAT: MethodId = MethodId(15);

const STRING_TO_STRING: MethodId = MethodId(16);

// Those of the program follow: 33 classes and 98 methods are the boot classes'.
const A: ClassId = ClassId(33);

const B: ClassId = ClassId(34);

const C: ClassId = ClassId(35);

const D: ClassId = ClassId(36);

const A_F: MethodId = MethodId(98);

const A_G: MethodId = MethodId(99);

const A_INIT: MethodId = MethodId(102);

const B_H: MethodId = MethodId(104);

const B_G: MethodId = MethodId(105);

const C_F: MethodId = MethodId(106);

const D_H: MethodId = MethodId(108);

// Constructors are asked for as no call does, and a class and a method that aren't there.
pub static LANDINGS: [Landing; 8] = [
    (A, A_F, Select::Found(A_F)),
    (D, A_F, Select::Found(C_F)),
    (D, B_H, Select::Found(D_H)),
    (A, A_INIT, Select::Abstract),
    (B, A_INIT, Select::Abstract),
    (A, B_H, Select::Abstract),
    (ClassId(9_999), A_F, Select::Abstract),
    (A, MethodId(9_999), Select::Abstract),
];

pub static CALLS: &[Shape] = &[
    (OBJECT_CLASS, &[], &[EQUALS, WAIT, NOTIFY, NOTIFY_ALL]),
    (
        STRING_CLASS,
        &[],
        &[
            STRING_EQUALS,
            WAIT,
            NOTIFY,
            NOTIFY_ALL,
            STRING_LENGTH,
            STRING_CHAR_AT,
            STRING_CONCAT,
            STRING_TO_STRING,
        ],
    ),
    (A, &[], &[EQUALS, WAIT, NOTIFY, NOTIFY_ALL, A_F, A_G]),
    (B, &[], &[EQUALS, WAIT, NOTIFY, NOTIFY_ALL, A_F, B_G, B_H]),
    (C, &[], &[EQUALS, WAIT, NOTIFY, NOTIFY_ALL, C_F, B_G, B_H]),
    (D, &[], &[EQUALS, WAIT, NOTIFY, NOTIFY_ALL, C_F, B_G, D_H]),
];

// In LBase; and LI; stand fields of one name and type, LDerived; names LJ; under LI; before LK;. The field v of LK; isn't static.
pub const FIELDS_TEXT: &str = ".class interface abstract LI;
.super Ljava/lang/Object;
.field static x:I
.field static y:I
.class interface abstract LJ;
.super Ljava/lang/Object;
.implements LI;
.field static z:I
.class interface abstract LK;
.super Ljava/lang/Object;
.field static x:I
.field static z:I
.field static w:J
.field v:I
.class LBase;
.super Ljava/lang/Object;
.field x:I
.field w:J
.field u:I
.class LDerived;
.super LBase;
.implements LJ;
.implements LK;
.field z:J
";

const I: ClassId = ClassId(33);

const J: ClassId = ClassId(34);

const K: ClassId = ClassId(35);

const BASE: ClassId = ClassId(36);

const DERIVED: ClassId = ClassId(37);

// Five fields are the boot classes'.
const TARGET: FieldId = FieldId(0);

const BASE_X: FieldId = FieldId(12);

const BASE_W: FieldId = FieldId(13);

const BASE_U: FieldId = FieldId(14);

const DERIVED_Z: FieldId = FieldId(15);

pub static FIELDS: &[Shape] = &[
    (
        BASE,
        &[BASE_X, BASE_W, BASE_U],
        &[EQUALS, WAIT, NOTIFY, NOTIFY_ALL],
    ),
    (
        DERIVED,
        &[BASE_X, BASE_W, BASE_U, DERIVED_Z],
        &[EQUALS, WAIT, NOTIFY, NOTIFY_ALL],
    ),
    // an interface's fields aren't among them, nor are static ones
    (K, &[], &[EQUALS, WAIT, NOTIFY, NOTIFY_ALL]),
    (I, &[], &[EQUALS, WAIT, NOTIFY, NOTIFY_ALL]),
    (
        THREAD_CLASS,
        &[TARGET],
        &[
            EQUALS,
            WAIT,
            NOTIFY,
            NOTIFY_ALL,
            THREAD_RUN,
            THREAD_START,
            THREAD_JOIN,
        ],
    ),
    (SYSTEM_CLASS, &[], &[EQUALS, WAIT, NOTIFY, NOTIFY_ALL]),
];
