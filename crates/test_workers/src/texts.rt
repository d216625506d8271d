// Whole texts, with the class LMain;.

/// Main starts a thread, with no local instruction before; then both do two local steps, print what they come to, and return.
pub const BOTH: &str = "
.class LT;
.super Ljava/lang/Thread;
.method constructor <init>()V
.registers 1
invoke-direct {p0}, Ljava/lang/Thread;-><init>()V
return-void
.end method
.method run()V
.registers 3
const/4 v0, 5
neg-int v1, v0
invoke-static {v1}, Ldvm/Console;->println(I)V
return-void
.end method
.class LMain;
.super Ljava/lang/Object;
.method static main()V
.registers 3
new-instance v0, LT;
invoke-direct {v0}, LT;-><init>()V
invoke-virtual {v0}, LT;->start()V
const/4 v1, 6
mul-int/lit8 v2, v1, 7
invoke-static {v2}, Ldvm/Console;->println(I)V
return-void
.end method
";

/// One thread, which prints 42.
pub const ONE: &str = "
.class LMain;
.super Ljava/lang/Object;
.method static main()V
.registers 2
const/4 v0, 6
mul-int/lit8 v1, v0, 7
invoke-static {v1}, Ldvm/Console;->println(I)V
return-void
.end method
";

/// It prints for ever: 2 bytes with each 2 steps, behind the first one.
pub const PRINTS: &str = "
.class LMain;
.super Ljava/lang/Object;
.method static main()V
.registers 1
const/4 v0, 1
:a
invoke-static {v0}, Ldvm/Console;->println(I)V
goto :a
.end method
";

/// A thread puts 0, 1 and 2 into a box that has room for one, and main takes and prints three numbers.
pub const HANDS_OVER: &str = "
.class LBox;
.super Ljava/lang/Object;
.field full:Z
.field value:I
.method constructor <init>()V
.registers 1
invoke-direct {p0}, Ljava/lang/Object;-><init>()V
return-void
.end method
.method put(I)V
.registers 3
monitor-enter p0
:a
iget-boolean v0, p0, LBox;->full:Z
if-eqz v0, :b
invoke-virtual {p0}, LBox;->wait()V
goto :a
:b
iput p1, p0, LBox;->value:I
const/4 v0, 1
iput-boolean v0, p0, LBox;->full:Z
invoke-virtual {p0}, LBox;->notifyAll()V
monitor-exit p0
return-void
.end method
.method take()I
.registers 3
monitor-enter p0
:a
iget-boolean v0, p0, LBox;->full:Z
if-nez v0, :b
invoke-virtual {p0}, LBox;->wait()V
goto :a
:b
const/4 v0, 0
iput-boolean v0, p0, LBox;->full:Z
iget v1, p0, LBox;->value:I
invoke-virtual {p0}, LBox;->notifyAll()V
monitor-exit p0
return v1
.end method
.class LMaker;
.super Ljava/lang/Thread;
.field box:LBox;
.method constructor <init>(LBox;)V
.registers 2
invoke-direct {p0}, Ljava/lang/Thread;-><init>()V
iput-object p1, p0, LMaker;->box:LBox;
return-void
.end method
.method run()V
.registers 4
iget-object v2, p0, LMaker;->box:LBox;
const/4 v0, 0
const/4 v1, 3
:a
if-ge v0, v1, :b
invoke-virtual {v2, v0}, LBox;->put(I)V
add-int/lit8 v0, v0, 1
goto :a
:b
return-void
.end method
.class LMain;
.super Ljava/lang/Object;
.method static main()V
.registers 4
new-instance v0, LBox;
invoke-direct {v0}, LBox;-><init>()V
new-instance v1, LMaker;
invoke-direct {v1, v0}, LMaker;-><init>(LBox;)V
invoke-virtual {v1}, LMaker;->start()V
const/4 v2, 3
:a
if-eqz v2, :b
invoke-virtual {v0}, LBox;->take()I
move-result v3
invoke-static {v3}, Ldvm/Console;->println(I)V
add-int/lit8 v2, v2, -1
goto :a
:b
return-void
.end method
";
