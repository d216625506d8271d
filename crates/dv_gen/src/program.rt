// The text of the demo.
ghost use Rattle.std.specs.Prelude.{◌≡◌, ◌++◌, decimal, IfOk, OnOk};
ghost use Rattle.std.specs.Fmt.{signed_decimal};
ghost use Rattle.dv_gen.specs.Demo.{call_text, calls_text, class_text, classes_text, main_head, main_tail, mixed, program_text, worker_head, worker_tail};

use dv_defs::Text;
use itoa::Buffer;
use std::alloc::{AllocError, Global};

/// What the number of each class is apart from that of the one before.
const APART: u32 = 1_000_003;

const WORKER_HEAD: &[u8] = b".class LW;
.super Ljava/lang/Thread;
.field id:I
.method constructor <init>(I)V
.registers 2
invoke-direct {p0}, Ljava/lang/Thread;-><init>()V
iput p1, p0, LW;->id:I
return-void
.end method
.method public run()V
.registers 4
iget v0, p0, LW;->id:I
";

const WORKER_TAIL: &[u8] = b"sget-object v1, LMain;->lock:Ljava/lang/Object;
monitor-enter v1
sget v2, LMain;->total:I
add-int v2, v2, v0
sput v2, LMain;->total:I
monitor-exit v1
return-void
.end method
";

const MAIN_HEAD: &[u8] = b".class LMain;
.super Ljava/lang/Object;
.field static total:I
.field static lock:Ljava/lang/Object;
.method static main()V
.registers 4
new-instance v0, Ljava/lang/Object;
invoke-direct {v0}, Ljava/lang/Object;-><init>()V
sput-object v0, LMain;->lock:Ljava/lang/Object;
const/16 v0, ";

const MAIN_TAIL: &[u8] = b"
new-array v1, v0, [LW;
const/4 v2, 0
:a
new-instance v3, LW;
invoke-direct {v3, v2}, LW;-><init>(I)V
aput-object v3, v1, v2
invoke-virtual {v3}, LW;->start()V
add-int/lit8 v2, v2, 1
if-lt v2, v0, :a
const/4 v2, 0
:b
aget-object v3, v1, v2
invoke-virtual {v3}, LW;->join()V
add-int/lit8 v2, v2, 1
if-lt v2, v0, :b
sget v0, LMain;->total:I
invoke-static {v0}, Ldvm/Console;->println(I)V
return-void
.end method
";

/// The number that the class at a place mixes in.
fn mixed(number: u64, place: u32) -> i32
    ensures { result ≡ mixed number place }
{
    let low = (number % 0x1_0000_0000) as u32;
    low.wrapping_add(APART.wrapping_mul(place)).cast_signed()
}

/// Appends a number in decimal.
fn add_number(text: &mut Vec<u8>, n: u32) -> Result<(), AllocError>
    ensures { OnOk result (text.new.items ≡ text.old.items ++ decimal n) }
{
    text.extend_from_slice(Buffer::new().format(n).as_bytes())
}

/// Appends the number that the class at a place mixes in.
fn add_mixed(text: &mut Vec<u8>, number: u64, place: u32) -> Result<(), AllocError>
    ensures { OnOk result (text.new.items ≡ text.old.items ++ signed_decimal (mixed number place)) }
{
    text.extend_from_slice(Buffer::new().format(mixed(number, place)).as_bytes())
}

/// Appends the class at a place.
#[tactic(auto, unfolding(crate::specs::Demo::class_text))]
fn add_class(text: &mut Vec<u8>, number: u64, place: u32) -> Result<(), AllocError>
    ensures { OnOk result (text.new.items ≡ text.old.items ++ class_text number place) }
{
    text.extend_from_slice(b".class LG")?;
    add_number(text, place)?;
    text.extend_from_slice(
        b";\n.super Ljava/lang/Object;\n.method static s(I)I\n.registers 2\nconst v0, ",
    )?;
    add_mixed(text, number, place)?;
    text.extend_from_slice(b"\nxor-int p0, p0, v0\nmul-int/lit8 p0, p0, 31\nconst/16 v0, ")?;
    add_number(text, place)?;
    text.extend_from_slice(b"\nadd-int p0, p0, v0\nreturn p0\n.end method\n")?;
    Ok(())
}

/// Appends so many classes.
fn add_classes(text: &mut Vec<u8>, number: u64, count: u32) -> Result<(), AllocError>
    ensures { OnOk result (text.new.items ≡ text.old.items ++ classes_text number count) }
{
    for place in 0..count {
        add_class(text, number, place)?;
    }
    Ok(())
}

/// Appends a call of the class at a place.
#[tactic(auto, unfolding(crate::specs::Demo::call_text))]
fn add_call(text: &mut Vec<u8>, place: u32) -> Result<(), AllocError>
    ensures { OnOk result (text.new.items ≡ text.old.items ++ call_text place) }
{
    text.extend_from_slice(b"invoke-static {v0}, LG")?;
    add_number(text, place)?;
    text.extend_from_slice(b";->s(I)I\nmove-result v0\n")?;
    Ok(())
}

/// Appends calls of so many classes.
fn add_calls(text: &mut Vec<u8>, count: u32) -> Result<(), AllocError>
    ensures { OnOk result (text.new.items ≡ text.old.items ++ calls_text count) }
{
    for place in 0..count {
        add_call(text, place)?;
    }
    Ok(())
}

/// The smali text of the demo: `classes` classes with a method each, a worker that calls all of them one after another, and a main method
/// that starts `threads` workers, waits for them, and prints the sum of what they came to.
///
/// # Errors
///
/// Want of memory.
#[tactic(auto, unfolding(crate::specs::Demo::worker_head, crate::specs::Demo::worker_tail, crate::specs::Demo::main_head, crate::specs::Demo::main_tail))]
pub fn program_of(
    alloc: Global,
    number: u64,
    classes: u32,
    threads: u32,
) -> Result<Text, AllocError>
    ensures { IfOk result (λ text. text ≡ program_text number classes threads) }
{
    let mut text = Vec::new(alloc);
    add_classes(&mut text, number, classes)?;
    text.extend_from_slice(WORKER_HEAD)?;
    add_calls(&mut text, classes)?;
    text.extend_from_slice(WORKER_TAIL)?;
    text.extend_from_slice(MAIN_HEAD)?;
    add_number(&mut text, threads)?;
    text.extend_from_slice(MAIN_TAIL)?;
    Text::of(text)
}
