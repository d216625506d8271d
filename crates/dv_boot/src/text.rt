// The classes that each program finds beside its own, as the smali text that is read when it is linked.
ghost use Rattle.std.specs.Prelude.{◌≡◌, ◌<◌, ◌^◌, length};

/// The text of the boot classes.
///
/// Object, Runnable, Class, Thread, String, StringBuilder, System, PrintStream, Text, Console and Throwable come
/// first, and then the classes of exceptions, each behind its superclass. A body is written with its number of
/// locals, and a native method has none.
pub const BOOT_TEXT: &str = r#".class Ljava/lang/Object;
.method constructor <init>()V
.locals 0
return-void
.end method
.method equals(Ljava/lang/Object;)Z
.locals 1
if-ne p0, p1, :a
const/4 v0, 0x1
return v0
:a
const/4 v0, 0x0
return v0
.end method
.method final native wait()V
.end method
.method native notify()V
.end method
.method native notifyAll()V
.end method
.class interface abstract Ljava/lang/Runnable;
.super Ljava/lang/Object;
.method abstract run()V
.end method
.class final Ljava/lang/Class;
.super Ljava/lang/Object;
.class Ljava/lang/Thread;
.super Ljava/lang/Object;
.implements Ljava/lang/Runnable;
.field target:Ljava/lang/Runnable;
.method constructor <init>()V
.locals 0
invoke-direct {p0}, Ljava/lang/Object;-><init>()V
return-void
.end method
.method constructor <init>(Ljava/lang/Runnable;)V
.locals 0
invoke-direct {p0}, Ljava/lang/Object;-><init>()V
iput-object p1, p0, Ljava/lang/Thread;->target:Ljava/lang/Runnable;
return-void
.end method
.method run()V
.locals 1
iget-object v0, p0, Ljava/lang/Thread;->target:Ljava/lang/Runnable;
if-eqz v0, :a
invoke-interface {v0}, Ljava/lang/Runnable;->run()V
:a
return-void
.end method
.method native start()V
.end method
.method native join()V
.end method
.method static native currentThread()Ljava/lang/Thread;
.end method
.class final Ljava/lang/String;
.super Ljava/lang/Object;
.method native length()I
.end method
.method native charAt(I)C
.end method
.method native equals(Ljava/lang/Object;)Z
.end method
.method native concat(Ljava/lang/String;)Ljava/lang/String;
.end method
.method toString()Ljava/lang/String;
.locals 0
return-object p0
.end method
.class final Ljava/lang/StringBuilder;
.super Ljava/lang/Object;
.field text:Ljava/lang/String;
.method constructor <init>()V
.locals 1
invoke-direct {p0}, Ljava/lang/Object;-><init>()V
const-string v0, ""
iput-object v0, p0, Ljava/lang/StringBuilder;->text:Ljava/lang/String;
return-void
.end method
.method constructor <init>(Ljava/lang/String;)V
.locals 0
invoke-direct {p0}, Ljava/lang/Object;-><init>()V
invoke-virtual {p1}, Ljava/lang/String;->length()I
iput-object p1, p0, Ljava/lang/StringBuilder;->text:Ljava/lang/String;
return-void
.end method
.method append(Ljava/lang/String;)Ljava/lang/StringBuilder;
.locals 1
if-nez p1, :a
const-string p1, "null"
:a
iget-object v0, p0, Ljava/lang/StringBuilder;->text:Ljava/lang/String;
invoke-virtual {v0, p1}, Ljava/lang/String;->concat(Ljava/lang/String;)Ljava/lang/String;
move-result-object v0
iput-object v0, p0, Ljava/lang/StringBuilder;->text:Ljava/lang/String;
return-object p0
.end method
.method append(I)Ljava/lang/StringBuilder;
.locals 3
int-to-long v0, p1
invoke-static {v0, v1}, Ldvm/Text;->ofLong(J)Ljava/lang/String;
move-result-object v0
invoke-virtual {p0, v0}, Ljava/lang/StringBuilder;->append(Ljava/lang/String;)Ljava/lang/StringBuilder;
return-object p0
.end method
.method append(J)Ljava/lang/StringBuilder;
.locals 3
invoke-static {p1, p2}, Ldvm/Text;->ofLong(J)Ljava/lang/String;
move-result-object v0
invoke-virtual {p0, v0}, Ljava/lang/StringBuilder;->append(Ljava/lang/String;)Ljava/lang/StringBuilder;
return-object p0
.end method
.method append(C)Ljava/lang/StringBuilder;
.locals 3
const/4 v1, 0x1
new-array v0, v1, [C
const/4 v2, 0x0
aput-char p1, v0, v2
invoke-static {v0, v2, v1}, Ldvm/Text;->ofChars([CII)Ljava/lang/String;
move-result-object v0
invoke-virtual {p0, v0}, Ljava/lang/StringBuilder;->append(Ljava/lang/String;)Ljava/lang/StringBuilder;
return-object p0
.end method
.method append(Z)Ljava/lang/StringBuilder;
.locals 3
if-eqz p1, :f
const-string v0, "true"
goto :g
:f
const-string v0, "false"
:g
invoke-virtual {p0, v0}, Ljava/lang/StringBuilder;->append(Ljava/lang/String;)Ljava/lang/StringBuilder;
return-object p0
.end method
.method toString()Ljava/lang/String;
.locals 1
iget-object v0, p0, Ljava/lang/StringBuilder;->text:Ljava/lang/String;
return-object v0
.end method
.method length()I
.locals 1
iget-object v0, p0, Ljava/lang/StringBuilder;->text:Ljava/lang/String;
invoke-virtual {v0}, Ljava/lang/String;->length()I
move-result v0
return v0
.end method
.class final Ljava/lang/System;
.super Ljava/lang/Object;
.field static final out:Ljava/io/PrintStream;
.class Ljava/io/PrintStream;
.super Ljava/lang/Object;
.method println()V
.locals 1
const-string v0, "\n"
invoke-static {v0}, Ldvm/Console;->print(Ljava/lang/String;)V
return-void
.end method
.method print(Ljava/lang/String;)V
.locals 3
if-nez p1, :a
const-string p1, "null"
:a
move-object v0, p1
invoke-static {v0}, Ldvm/Console;->print(Ljava/lang/String;)V
return-void
.end method
.method print(I)V
.locals 3
int-to-long v0, p1
invoke-static {v0, v1}, Ldvm/Text;->ofLong(J)Ljava/lang/String;
move-result-object v0
invoke-static {v0}, Ldvm/Console;->print(Ljava/lang/String;)V
return-void
.end method
.method print(J)V
.locals 3
invoke-static {p1, p2}, Ldvm/Text;->ofLong(J)Ljava/lang/String;
move-result-object v0
invoke-static {v0}, Ldvm/Console;->print(Ljava/lang/String;)V
return-void
.end method
.method print(C)V
.locals 3
const/4 v1, 0x1
new-array v0, v1, [C
const/4 v2, 0x0
aput-char p1, v0, v2
invoke-static {v0, v2, v1}, Ldvm/Text;->ofChars([CII)Ljava/lang/String;
move-result-object v0
invoke-static {v0}, Ldvm/Console;->print(Ljava/lang/String;)V
return-void
.end method
.method print(Z)V
.locals 3
if-eqz p1, :f
const-string v0, "true"
goto :g
:f
const-string v0, "false"
:g
invoke-static {v0}, Ldvm/Console;->print(Ljava/lang/String;)V
return-void
.end method
.method println(Ljava/lang/String;)V
.locals 3
if-nez p1, :a
const-string p1, "null"
:a
move-object v0, p1
const-string v1, "\n"
invoke-virtual {v0, v1}, Ljava/lang/String;->concat(Ljava/lang/String;)Ljava/lang/String;
move-result-object v0
invoke-static {v0}, Ldvm/Console;->print(Ljava/lang/String;)V
return-void
.end method
.method println(I)V
.locals 3
int-to-long v0, p1
invoke-static {v0, v1}, Ldvm/Text;->ofLong(J)Ljava/lang/String;
move-result-object v0
const-string v1, "\n"
invoke-virtual {v0, v1}, Ljava/lang/String;->concat(Ljava/lang/String;)Ljava/lang/String;
move-result-object v0
invoke-static {v0}, Ldvm/Console;->print(Ljava/lang/String;)V
return-void
.end method
.method println(J)V
.locals 3
invoke-static {p1, p2}, Ldvm/Text;->ofLong(J)Ljava/lang/String;
move-result-object v0
const-string v1, "\n"
invoke-virtual {v0, v1}, Ljava/lang/String;->concat(Ljava/lang/String;)Ljava/lang/String;
move-result-object v0
invoke-static {v0}, Ldvm/Console;->print(Ljava/lang/String;)V
return-void
.end method
.method println(C)V
.locals 3
const/4 v1, 0x1
new-array v0, v1, [C
const/4 v2, 0x0
aput-char p1, v0, v2
invoke-static {v0, v2, v1}, Ldvm/Text;->ofChars([CII)Ljava/lang/String;
move-result-object v0
const-string v1, "\n"
invoke-virtual {v0, v1}, Ljava/lang/String;->concat(Ljava/lang/String;)Ljava/lang/String;
move-result-object v0
invoke-static {v0}, Ldvm/Console;->print(Ljava/lang/String;)V
return-void
.end method
.method println(Z)V
.locals 3
if-eqz p1, :f
const-string v0, "true"
goto :g
:f
const-string v0, "false"
:g
const-string v1, "\n"
invoke-virtual {v0, v1}, Ljava/lang/String;->concat(Ljava/lang/String;)Ljava/lang/String;
move-result-object v0
invoke-static {v0}, Ldvm/Console;->print(Ljava/lang/String;)V
return-void
.end method
.class Ldvm/Text;
.super Ljava/lang/Object;
.method static native ofLong(J)Ljava/lang/String;
.end method
.method static native ofChars([CII)Ljava/lang/String;
.end method
.class Ldvm/Console;
.super Ljava/lang/Object;
.method static native print(Ljava/lang/String;)V
.end method
.method static native println(I)V
.end method
.class Ljava/lang/Throwable;
.super Ljava/lang/Object;
.field message:Ljava/lang/String;
.field cause:Ljava/lang/Throwable;
.method constructor <init>()V
.locals 0
invoke-direct {p0}, Ljava/lang/Object;-><init>()V
return-void
.end method
.method constructor <init>(Ljava/lang/String;)V
.locals 0
invoke-direct {p0}, Ljava/lang/Object;-><init>()V
iput-object p1, p0, Ljava/lang/Throwable;->message:Ljava/lang/String;
return-void
.end method
.method constructor <init>(Ljava/lang/String;Ljava/lang/Throwable;)V
.locals 0
invoke-direct {p0}, Ljava/lang/Object;-><init>()V
iput-object p1, p0, Ljava/lang/Throwable;->message:Ljava/lang/String;
iput-object p2, p0, Ljava/lang/Throwable;->cause:Ljava/lang/Throwable;
return-void
.end method
.method constructor <init>(Ljava/lang/Throwable;)V
.locals 0
invoke-direct {p0}, Ljava/lang/Object;-><init>()V
iput-object p1, p0, Ljava/lang/Throwable;->cause:Ljava/lang/Throwable;
return-void
.end method
.method getMessage()Ljava/lang/String;
.locals 1
iget-object v0, p0, Ljava/lang/Throwable;->message:Ljava/lang/String;
return-object v0
.end method
.method getCause()Ljava/lang/Throwable;
.locals 1
iget-object v0, p0, Ljava/lang/Throwable;->cause:Ljava/lang/Throwable;
return-object v0
.end method
.class Ljava/lang/Exception;
.super Ljava/lang/Throwable;
.method constructor <init>()V
.locals 0
invoke-direct {p0}, Ljava/lang/Throwable;-><init>()V
return-void
.end method
.method constructor <init>(Ljava/lang/String;)V
.locals 0
invoke-direct {p0, p1}, Ljava/lang/Throwable;-><init>(Ljava/lang/String;)V
return-void
.end method
.method constructor <init>(Ljava/lang/String;Ljava/lang/Throwable;)V
.locals 0
invoke-direct {p0, p1, p2}, Ljava/lang/Throwable;-><init>(Ljava/lang/String;Ljava/lang/Throwable;)V
return-void
.end method
.method constructor <init>(Ljava/lang/Throwable;)V
.locals 0
invoke-direct {p0, p1}, Ljava/lang/Throwable;-><init>(Ljava/lang/Throwable;)V
return-void
.end method
.class Ljava/lang/Error;
.super Ljava/lang/Throwable;
.method constructor <init>()V
.locals 0
invoke-direct {p0}, Ljava/lang/Throwable;-><init>()V
return-void
.end method
.method constructor <init>(Ljava/lang/String;)V
.locals 0
invoke-direct {p0, p1}, Ljava/lang/Throwable;-><init>(Ljava/lang/String;)V
return-void
.end method
.method constructor <init>(Ljava/lang/String;Ljava/lang/Throwable;)V
.locals 0
invoke-direct {p0, p1, p2}, Ljava/lang/Throwable;-><init>(Ljava/lang/String;Ljava/lang/Throwable;)V
return-void
.end method
.method constructor <init>(Ljava/lang/Throwable;)V
.locals 0
invoke-direct {p0, p1}, Ljava/lang/Throwable;-><init>(Ljava/lang/Throwable;)V
return-void
.end method
.class Ljava/lang/RuntimeException;
.super Ljava/lang/Exception;
.method constructor <init>()V
.locals 0
invoke-direct {p0}, Ljava/lang/Exception;-><init>()V
return-void
.end method
.method constructor <init>(Ljava/lang/String;)V
.locals 0
invoke-direct {p0, p1}, Ljava/lang/Exception;-><init>(Ljava/lang/String;)V
return-void
.end method
.method constructor <init>(Ljava/lang/String;Ljava/lang/Throwable;)V
.locals 0
invoke-direct {p0, p1, p2}, Ljava/lang/Exception;-><init>(Ljava/lang/String;Ljava/lang/Throwable;)V
return-void
.end method
.method constructor <init>(Ljava/lang/Throwable;)V
.locals 0
invoke-direct {p0, p1}, Ljava/lang/Exception;-><init>(Ljava/lang/Throwable;)V
return-void
.end method
.class Ljava/lang/InterruptedException;
.super Ljava/lang/Exception;
.method constructor <init>()V
.locals 0
invoke-direct {p0}, Ljava/lang/Exception;-><init>()V
return-void
.end method
.method constructor <init>(Ljava/lang/String;)V
.locals 0
invoke-direct {p0, p1}, Ljava/lang/Exception;-><init>(Ljava/lang/String;)V
return-void
.end method
.class Ljava/lang/ArithmeticException;
.super Ljava/lang/RuntimeException;
.method constructor <init>()V
.locals 0
invoke-direct {p0}, Ljava/lang/RuntimeException;-><init>()V
return-void
.end method
.method constructor <init>(Ljava/lang/String;)V
.locals 0
invoke-direct {p0, p1}, Ljava/lang/RuntimeException;-><init>(Ljava/lang/String;)V
return-void
.end method
.class Ljava/lang/NullPointerException;
.super Ljava/lang/RuntimeException;
.method constructor <init>()V
.locals 0
invoke-direct {p0}, Ljava/lang/RuntimeException;-><init>()V
return-void
.end method
.method constructor <init>(Ljava/lang/String;)V
.locals 0
invoke-direct {p0, p1}, Ljava/lang/RuntimeException;-><init>(Ljava/lang/String;)V
return-void
.end method
.class Ljava/lang/NegativeArraySizeException;
.super Ljava/lang/RuntimeException;
.method constructor <init>()V
.locals 0
invoke-direct {p0}, Ljava/lang/RuntimeException;-><init>()V
return-void
.end method
.method constructor <init>(Ljava/lang/String;)V
.locals 0
invoke-direct {p0, p1}, Ljava/lang/RuntimeException;-><init>(Ljava/lang/String;)V
return-void
.end method
.class Ljava/lang/ClassCastException;
.super Ljava/lang/RuntimeException;
.method constructor <init>()V
.locals 0
invoke-direct {p0}, Ljava/lang/RuntimeException;-><init>()V
return-void
.end method
.method constructor <init>(Ljava/lang/String;)V
.locals 0
invoke-direct {p0, p1}, Ljava/lang/RuntimeException;-><init>(Ljava/lang/String;)V
return-void
.end method
.class Ljava/lang/ArrayStoreException;
.super Ljava/lang/RuntimeException;
.method constructor <init>()V
.locals 0
invoke-direct {p0}, Ljava/lang/RuntimeException;-><init>()V
return-void
.end method
.method constructor <init>(Ljava/lang/String;)V
.locals 0
invoke-direct {p0, p1}, Ljava/lang/RuntimeException;-><init>(Ljava/lang/String;)V
return-void
.end method
.class Ljava/lang/IllegalMonitorStateException;
.super Ljava/lang/RuntimeException;
.method constructor <init>()V
.locals 0
invoke-direct {p0}, Ljava/lang/RuntimeException;-><init>()V
return-void
.end method
.method constructor <init>(Ljava/lang/String;)V
.locals 0
invoke-direct {p0, p1}, Ljava/lang/RuntimeException;-><init>(Ljava/lang/String;)V
return-void
.end method
.class Ljava/lang/IndexOutOfBoundsException;
.super Ljava/lang/RuntimeException;
.method constructor <init>()V
.locals 0
invoke-direct {p0}, Ljava/lang/RuntimeException;-><init>()V
return-void
.end method
.method constructor <init>(Ljava/lang/String;)V
.locals 0
invoke-direct {p0, p1}, Ljava/lang/RuntimeException;-><init>(Ljava/lang/String;)V
return-void
.end method
.class Ljava/lang/IllegalArgumentException;
.super Ljava/lang/RuntimeException;
.method constructor <init>()V
.locals 0
invoke-direct {p0}, Ljava/lang/RuntimeException;-><init>()V
return-void
.end method
.method constructor <init>(Ljava/lang/String;)V
.locals 0
invoke-direct {p0, p1}, Ljava/lang/RuntimeException;-><init>(Ljava/lang/String;)V
return-void
.end method
.class Ljava/lang/ArrayIndexOutOfBoundsException;
.super Ljava/lang/IndexOutOfBoundsException;
.method constructor <init>()V
.locals 0
invoke-direct {p0}, Ljava/lang/IndexOutOfBoundsException;-><init>()V
return-void
.end method
.method constructor <init>(Ljava/lang/String;)V
.locals 0
invoke-direct {p0, p1}, Ljava/lang/IndexOutOfBoundsException;-><init>(Ljava/lang/String;)V
return-void
.end method
.class Ljava/lang/IllegalThreadStateException;
.super Ljava/lang/IllegalArgumentException;
.method constructor <init>()V
.locals 0
invoke-direct {p0}, Ljava/lang/IllegalArgumentException;-><init>()V
return-void
.end method
.method constructor <init>(Ljava/lang/String;)V
.locals 0
invoke-direct {p0, p1}, Ljava/lang/IllegalArgumentException;-><init>(Ljava/lang/String;)V
return-void
.end method
.class Ljava/lang/LinkageError;
.super Ljava/lang/Error;
.method constructor <init>()V
.locals 0
invoke-direct {p0}, Ljava/lang/Error;-><init>()V
return-void
.end method
.method constructor <init>(Ljava/lang/String;)V
.locals 0
invoke-direct {p0, p1}, Ljava/lang/Error;-><init>(Ljava/lang/String;)V
return-void
.end method
.class Ljava/lang/VirtualMachineError;
.super Ljava/lang/Error;
.method constructor <init>()V
.locals 0
invoke-direct {p0}, Ljava/lang/Error;-><init>()V
return-void
.end method
.method constructor <init>(Ljava/lang/String;)V
.locals 0
invoke-direct {p0, p1}, Ljava/lang/Error;-><init>(Ljava/lang/String;)V
return-void
.end method
.class Ljava/lang/NoClassDefFoundError;
.super Ljava/lang/LinkageError;
.method constructor <init>()V
.locals 0
invoke-direct {p0}, Ljava/lang/LinkageError;-><init>()V
return-void
.end method
.method constructor <init>(Ljava/lang/String;)V
.locals 0
invoke-direct {p0, p1}, Ljava/lang/LinkageError;-><init>(Ljava/lang/String;)V
return-void
.end method
.class Ljava/lang/ExceptionInInitializerError;
.super Ljava/lang/LinkageError;
.method constructor <init>()V
.locals 0
invoke-direct {p0}, Ljava/lang/LinkageError;-><init>()V
return-void
.end method
.method constructor <init>(Ljava/lang/String;)V
.locals 0
invoke-direct {p0, p1}, Ljava/lang/LinkageError;-><init>(Ljava/lang/String;)V
return-void
.end method
.method constructor <init>(Ljava/lang/Throwable;)V
.locals 0
invoke-direct {p0}, Ljava/lang/LinkageError;-><init>()V
iput-object p1, p0, Ljava/lang/Throwable;->cause:Ljava/lang/Throwable;
return-void
.end method
.class Ljava/lang/IncompatibleClassChangeError;
.super Ljava/lang/LinkageError;
.method constructor <init>()V
.locals 0
invoke-direct {p0}, Ljava/lang/LinkageError;-><init>()V
return-void
.end method
.method constructor <init>(Ljava/lang/String;)V
.locals 0
invoke-direct {p0, p1}, Ljava/lang/LinkageError;-><init>(Ljava/lang/String;)V
return-void
.end method
.class Ljava/lang/AbstractMethodError;
.super Ljava/lang/IncompatibleClassChangeError;
.method constructor <init>()V
.locals 0
invoke-direct {p0}, Ljava/lang/IncompatibleClassChangeError;-><init>()V
return-void
.end method
.method constructor <init>(Ljava/lang/String;)V
.locals 0
invoke-direct {p0, p1}, Ljava/lang/IncompatibleClassChangeError;-><init>(Ljava/lang/String;)V
return-void
.end method
.class Ljava/lang/OutOfMemoryError;
.super Ljava/lang/VirtualMachineError;
.method constructor <init>()V
.locals 0
invoke-direct {p0}, Ljava/lang/VirtualMachineError;-><init>()V
return-void
.end method
.method constructor <init>(Ljava/lang/String;)V
.locals 0
invoke-direct {p0, p1}, Ljava/lang/VirtualMachineError;-><init>(Ljava/lang/String;)V
return-void
.end method
.class Ljava/lang/StackOverflowError;
.super Ljava/lang/VirtualMachineError;
.method constructor <init>()V
.locals 0
invoke-direct {p0}, Ljava/lang/VirtualMachineError;-><init>()V
return-void
.end method
.method constructor <init>(Ljava/lang/String;)V
.locals 0
invoke-direct {p0, p1}, Ljava/lang/VirtualMachineError;-><init>(Ljava/lang/String;)V
return-void
.end method
"#;

/// The text of the boot classes.
pub fn boot_text() -> &'static str
    ensures text { result.now ≡ BOOT_TEXT.now }
    ensures bounded { length result.now < 2 ^ 15 }
{
    BOOT_TEXT
}
