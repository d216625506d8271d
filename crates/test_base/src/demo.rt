// The demo's program.
use dv_gen::program_of;
use std::test::Fail;

/// One class and two threads, of the number 4,294,967,294, which is -2 in 32 bits.
const SMALL: &[u8] = b".class LG0;
.super Ljava/lang/Object;
.method static s(I)I
.registers 2
const v0, -2
xor-int p0, p0, v0
mul-int/lit8 p0, p0, 31
const/16 v0, 0
add-int p0, p0, v0
return p0
.end method
.class LW;
.super Ljava/lang/Thread;
.field id:I
.method constructor <init>(I)V
.registers 2
invoke-direct {p0}, Ljava/lang/Thread;-><init>()V
iput p1, p0, LW;->id:I
return-void
.end method
.method public run()V
.registers 4
iget v0, p0, LW;->id:I
invoke-static {v0}, LG0;->s(I)I
move-result v0
sget-object v1, LMain;->lock:Ljava/lang/Object;
monitor-enter v1
sget v2, LMain;->total:I
add-int v2, v2, v0
sput v2, LMain;->total:I
monitor-exit v1
return-void
.end method
.class LMain;
.super Ljava/lang/Object;
.field static total:I
.field static lock:Ljava/lang/Object;
.method static main()V
.registers 4
new-instance v0, Ljava/lang/Object;
invoke-direct {v0}, Ljava/lang/Object;-><init>()V
sput-object v0, LMain;->lock:Ljava/lang/Object;
const/16 v0, 2
new-array v1, v0, [LW;
const/4 v2, 0
:a
new-instance v3, LW;
invoke-direct {v3, v2}, LW;-><init>(I)V
aput-object v3, v1, v2
invoke-virtual {v3}, LW;->start()V
add-int/lit8 v2, v2, 1
if-lt v2, v0, :a
const/4 v2, 0
:b
aget-object v3, v1, v2
invoke-virtual {v3}, LW;->join()V
add-int/lit8 v2, v2, 1
if-lt v2, v0, :b
sget v0, LMain;->total:I
invoke-static {v0}, Ldvm/Console;->println(I)V
return-void
.end method
";

#[test]
fn the_demo_is_made_of_its_numbers(rt: HostRuntime) -> Result<(), Fail> {
    let alloc = rt.alloc();
    let small = program_of(alloc, 4_294_967_294, 1, 2)?;
    assert!(rt; small.bytes() == SMALL);
    let large = program_of(alloc, 5, 1000, 60)?;
    assert_eq!(rt; large.bytes().len(), 244671);
    Ok(())
}
