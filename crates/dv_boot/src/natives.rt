// Which methods of the boot classes are native.
ghost use Rattle.std.specs.Prelude.{◌≡◌, ◌&&◌, bytes_eq};
ghost use Rattle.dv_boot.specs.Families.{object_natives, thread_natives, string_natives, own_natives};
ghost use Rattle.dv_machine.specs.Calls.{all_natives, native_among};

use dv_defs::Native;

const OBJECT: &[u8] = b"Ljava/lang/Object;";

const THREAD: &[u8] = b"Ljava/lang/Thread;";

const STRING: &[u8] = b"Ljava/lang/String;";

const TEXT: &[u8] = b"Ldvm/Text;";

const CONSOLE: &[u8] = b"Ldvm/Console;";

/// Whether a class and a name are just these.
fn is_of(class: &[u8], name: &[u8], of: &[u8], named: &[u8]) -> bool
    ensures { result ≡ (bytes_eq of.now class.now && bytes_eq named.now name.now) }
{
    of == class && named == name
}

/// The native method of Object of that class and name.
fn of_object(class: &[u8], name: &[u8]) -> Option<Native>
    ensures { result ≡ native_among object_natives class.now name.now }
{
    if is_of(class, name, OBJECT, b"wait") {
        Some(Native::Wait)
    } else if is_of(class, name, OBJECT, b"notify") {
        Some(Native::Notify)
    } else if is_of(class, name, OBJECT, b"notifyAll") {
        Some(Native::NotifyAll)
    } else {
        None
    }
}

/// The native method of Thread of that class and name.
fn of_thread(class: &[u8], name: &[u8]) -> Option<Native>
    ensures { result ≡ native_among thread_natives class.now name.now }
{
    if is_of(class, name, THREAD, b"start") {
        Some(Native::Start)
    } else if is_of(class, name, THREAD, b"join") {
        Some(Native::Join)
    } else if is_of(class, name, THREAD, b"currentThread") {
        Some(Native::CurrentThread)
    } else {
        None
    }
}

/// The native method of String of that class and name.
fn of_string(class: &[u8], name: &[u8]) -> Option<Native>
    ensures { result ≡ native_among string_natives class.now name.now }
{
    if is_of(class, name, STRING, b"length") {
        Some(Native::Length)
    } else if is_of(class, name, STRING, b"charAt") {
        Some(Native::CharAt)
    } else if is_of(class, name, STRING, b"equals") {
        Some(Native::Equals)
    } else if is_of(class, name, STRING, b"concat") {
        Some(Native::Concat)
    } else {
        None
    }
}

/// The native method of Text or Console of that class and name.
fn of_own(class: &[u8], name: &[u8]) -> Option<Native>
    ensures { result ≡ native_among own_natives class.now name.now }
{
    if is_of(class, name, TEXT, b"ofLong") {
        Some(Native::OfLong)
    } else if is_of(class, name, TEXT, b"ofChars") {
        Some(Native::OfChars)
    } else if is_of(class, name, CONSOLE, b"print") {
        Some(Native::Print)
    } else if is_of(class, name, CONSOLE, b"println") {
        Some(Native::Println)
    } else {
        None
    }
}

/// The native method that a class declares under a name.
pub fn native(class: &[u8], name: &[u8]) -> Option<Native>
    ensures { result ≡ native_among all_natives class.now name.now }
{
    of_object(class, name)
        .or(of_thread(class, name))
        .or(of_string(class, name))
        .or(of_own(class, name))
}
