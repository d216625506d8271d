// Java names of classes, and the descriptors that they name.
ghost use Rattle.std.specs.Prelude.{◌≡◌, IfOk};
ghost use Rattle.dv_console.specs.Words.{descriptor_of, is_java_name, is_name_byte};

use dv_defs::Text;
use std::alloc::{AllocError, Global};

/// Whether a text is pieces joined by dots, each of one letter, digit, `_` or `$` at least.
pub fn is_java_name(name: &[u8]) -> bool
    ensures { result ≡ is_java_name name.now }
{
    let mut begun = false;
    for b in name {
        if *b == b'.' {
            if !begun {
                return false;
            }
            begun = false;
        } else if is_name_byte(*b) {
            begun = true;
        } else {
            return false;
        }
    }
    begun
}

fn is_name_byte(b: u8) -> bool
    ensures { result ≡ is_name_byte b }
{
    b.is_ascii_alphanumeric() || b == b'_' || b == b'$'
}

/// The descriptor of the class of a Java name.
///
/// # Errors
///
/// Want of memory.
pub fn descriptor_of(alloc: Global, name: &[u8]) -> Result<Text, AllocError>
    ensures { IfOk result (λ class. class ≡ descriptor_of name.now) }
{
    let mut descriptor = Vec::from_slice(alloc, b"L")?;
    for b in name {
        descriptor.push(if *b == b'.' { b'/' } else { *b })?;
    }
    descriptor.push(b';')?;
    Text::of(descriptor)
}
