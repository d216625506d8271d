// Numbers and labels as they are printed.
ghost use Rattle.std.specs.Prelude.{◌≡◌, ◌<◌, ◌++◌, decimal, IfOk, OnOk};
ghost use Rattle.std.specs.Fmt.{signed_decimal};
ghost use Rattle.dv_names.specs.Written.{digit, hexadecimal};
ghost use Rattle.dv_print.specs.Numbers.{address_text, label_name};

use itoa::Buffer;
use std::alloc::{AllocError, Global};

/// Appends a number in decimal.
pub fn add_decimal(text: &mut Vec<u8>, n: u64) -> Result<(), AllocError>
    ensures { OnOk result (text.new.items ≡ text.old.items ++ decimal n) }
{
    text.extend_from_slice(Buffer::new().format(n).as_bytes())
}

/// Appends a signed number in decimal.
pub fn add_signed_decimal(text: &mut Vec<u8>, n: i64) -> Result<(), AllocError>
    ensures { OnOk result (text.new.items ≡ text.old.items ++ signed_decimal n) }
{
    text.extend_from_slice(Buffer::new().format(n).as_bytes())
}

/// A hexadecimal digit.
fn digit(n: u8) -> u8
    requires { n < 16 }
    ensures { result ≡ digit n }
{
    if n < 10 { b'0' + n } else { b'a' - 10 + n }
}

/// A number of 16 bits as four hexadecimal digits.
pub fn hexadecimal(n: u16) -> [u8; 4]
    ensures { result ≡ hexadecimal n }
{
    [
        digit((n / 4096 % 16) as u8),
        digit((n / 256 % 16) as u8),
        digit((n / 16 % 16) as u8),
        digit((n % 16) as u8),
    ]
}

/// An address: four hexadecimal digits, and eight of one that no body has.
fn address_text(alloc: Global, address: u32) -> Result<Vec<u8>, AllocError>
    ensures { IfOk result (λ v. v.items ≡ address_text address) }
{
    let low = hexadecimal((address % 65536) as u16);
    if address < 65536 {
        return Vec::from_slice(alloc, &low);
    }
    let high = hexadecimal((address / 65536) as u16);
    let mut text = Vec::from_slice(alloc, &high)?;
    text.extend_from_slice(&low)?;
    Ok(text)
}

/// The name of the label at an address.
pub fn label_name(alloc: Global, address: u32) -> Result<Vec<u8>, AllocError>
    ensures { IfOk result (λ v. v.items ≡ label_name address) }
{
    let mut name = vec![in alloc; b'L']?;
    name.extend_from_slice(&address_text(alloc, address)?)?;
    Ok(name)
}
