// Whole texts, with the class LMain;, and limits with room for all that they do.
use dv_defs::Limits;

pub const AMPLE: Limits = Limits {
    budget: 1_000_000,
    heap: 1_048_576,
    output: 16_777_216,
    threads: 64,
    levels: 1024,
    words: 16_384,
};

/// Main starts a thread, in eight steps; then both do two local steps, print what they come to, and return.
pub const BOTH: &str = "
.class LT;
.super Ljava/lang/Thread;
.method constructor <init>()V
.registers 1
invoke-direct {p0}, Ljava/lang/Thread;-><init>()V
return-void
.end method
.method run()V
.registers 3
const/4 v0, 5
neg-int v1, v0
invoke-static {v1}, Ldvm/Console;->println(I)V
return-void
.end method
.class LMain;
.super Ljava/lang/Object;
.method static main()V
.registers 3
new-instance v0, LT;
invoke-direct {v0}, LT;-><init>()V
invoke-virtual {v0}, LT;->start()V
const/4 v1, 6
mul-int/lit8 v2, v1, 7
invoke-static {v2}, Ldvm/Console;->println(I)V
return-void
.end method
";

/// What both print where main goes first.
pub const MAIN_FIRST: &str = "42\n-5\n#end done\n";

/// Main starts a thread, in eight steps, and both do local steps without an end.
pub const FOREVER: &str = "
.class LT;
.super Ljava/lang/Thread;
.method constructor <init>()V
.registers 1
invoke-direct {p0}, Ljava/lang/Thread;-><init>()V
return-void
.end method
.method run()V
.registers 1
:a
nop
goto :a
.end method
.class LMain;
.super Ljava/lang/Object;
.method static main()V
.registers 1
new-instance v0, LT;
invoke-direct {v0}, LT;-><init>()V
invoke-virtual {v0}, LT;->start()V
:a
nop
goto :a
.end method
";

/// How that ends.
pub const SPENT: &str = "#end steps\n";

/// Main starts a thread, in eight steps; its second step then lacks a word of 64.
pub const FILLS: &str = "
.class LT;
.super Ljava/lang/Thread;
.method constructor <init>()V
.registers 1
invoke-direct {p0}, Ljava/lang/Thread;-><init>()V
return-void
.end method
.method run()V
.registers 1
nop
return-void
.end method
.class LMain;
.super Ljava/lang/Object;
.method static main()V
.registers 1
new-instance v0, LT;
invoke-direct {v0}, LT;-><init>()V
invoke-virtual {v0}, LT;->start()V
const/16 v0, 63
new-array v0, v0, [I
return-void
.end method
";

/// Main starts a thread, in eight steps, and joins it; both print.
pub const JOINS: &str = "
.class LT;
.super Ljava/lang/Thread;
.method constructor <init>()V
.registers 1
invoke-direct {p0}, Ljava/lang/Thread;-><init>()V
return-void
.end method
.method run()V
.registers 2
const/4 v0, 1
invoke-static {v0}, Ldvm/Console;->println(I)V
return-void
.end method
.class LMain;
.super Ljava/lang/Object;
.method static main()V
.registers 1
new-instance v0, LT;
invoke-direct {v0}, LT;-><init>()V
invoke-virtual {v0}, LT;->start()V
invoke-virtual {v0}, LT;->join()V
const/4 v0, 2
invoke-static {v0}, Ldvm/Console;->println(I)V
return-void
.end method
";
