// Which methods are native. What the boot classes are and do is told by the cases of `cases/top`.
use dv_boot::native;
use dv_defs::Native;
use std::test::Fail;

// Every native, with its class and its name.
static NATIVES: [(&str, &str, Native); 14] = [
    ("Ljava/lang/Object;", "wait", Native::Wait),
    ("Ljava/lang/Object;", "notify", Native::Notify),
    ("Ljava/lang/Object;", "notifyAll", Native::NotifyAll),
    ("Ljava/lang/Thread;", "start", Native::Start),
    ("Ljava/lang/Thread;", "join", Native::Join),
    ("Ljava/lang/Thread;", "currentThread", Native::CurrentThread),
    ("Ljava/lang/String;", "length", Native::Length),
    ("Ljava/lang/String;", "charAt", Native::CharAt),
    ("Ljava/lang/String;", "equals", Native::Equals),
    ("Ljava/lang/String;", "concat", Native::Concat),
    ("Ldvm/Text;", "ofLong", Native::OfLong),
    ("Ldvm/Text;", "ofChars", Native::OfChars),
    ("Ldvm/Console;", "print", Native::Print),
    ("Ldvm/Console;", "println", Native::Println),
];

// A class and a name that no native has.
static OTHERS: [(&str, &str); 14] = [
    ("Ljava/lang/Object;", "equals"),
    ("Ljava/lang/Object;", "start"),
    ("Ljava/lang/Object;", "Wait"),
    ("Ljava/lang/Object;", "wait()V"),
    ("Ljava/lang/Thread;", "run"),
    ("Ljava/lang/Thread;", "wait"),
    ("Ljava/lang/String;", "toString"),
    ("Ljava/lang/StringBuilder;", "length"),
    ("Ljava/io/PrintStream;", "println"),
    ("Ldvm/Text", "ofLong"),
    ("dvm.Console", "print"),
    ("", "print"),
    ("Ldvm/Console;", ""),
    ("", ""),
];

#[test]
fn natives_are_known_by_class_and_name(rt: HostRuntime) -> Result<(), Fail> {
    for (class, name, known) in NATIVES.iter() {
        let found = native(class.as_bytes(), name.as_bytes());
        assert_eq!(rt; found, Some(*known), "{class} {name}");
    }
    for (class, name) in OTHERS.iter() {
        let found = native(class.as_bytes(), name.as_bytes());
        assert_eq!(rt; found, None, "{class} {name}");
    }
    Ok(())
}
