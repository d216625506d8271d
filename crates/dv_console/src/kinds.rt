// What is said of each kind of refusal.
ghost use Rattle.std.specs.Prelude.{◌≡◌, ◌++◌, codes, OnOk};
ghost use Rattle.dv_console.specs.Refusals.{line_text, link_text, which_text};

use dv_defs::{LineKind, LinkKind, Text, Which};
use std::alloc::AllocError;

/// What is said of a line that is refused.
pub fn line_text(kind: LineKind) -> &'static [u8]
    ensures { result.now ≡ line_text kind }
{
    match kind {
        LineKind::NotUtf8 => b"not UTF-8",
        LineKind::BadToken => b"bad token",
        LineKind::BadEscape => b"bad escape",
        LineKind::NumberRange => b"number out of range",
        LineKind::BadDescriptor => b"bad descriptor",
        LineKind::FloatType => b"float type",
        LineKind::FloatInsn => b"float instruction",
        LineKind::UnknownInsn => b"unknown instruction",
        LineKind::UnknownDirective => b"unknown directive",
        LineKind::Misplaced => b"misplaced",
        LineKind::Missing => b"missing part",
        LineKind::TooManyRegisters => b"too many registers",
        LineKind::NoLabel => b"no label",
        LineKind::LabelTwice => b"label twice",
        LineKind::OffsetRange => b"offset out of range",
        LineKind::RegisterRange => b"register out of range",
        LineKind::TryRange => b"empty try range",
        LineKind::TryOverlap => b"try ranges overlap",
        LineKind::TooLong => b"method too long",
        LineKind::Operands => b"wrong operands",
        LineKind::Repeated => b"repeated",
        LineKind::BadLogLine => b"bad schedule line",
    }
}

fn which_text(which: Which) -> &'static [u8]
    ensures { result.now ≡ which_text which }
{
    match which {
        Which::Classes => b"classes",
        Which::Methods => b"methods",
        Which::Fields => b"fields",
        Which::Cells => b"cells",
    }
}

/// Appends a name, with bytes before and behind it.
fn add_named(
    line: &mut Vec<u8>,
    before: &[u8],
    name: &Text,
    behind: &[u8],
) -> Result<(), AllocError>
    ensures { OnOk result (line.new.items ≡ line.old.items ++ (before.now ++ name.now ++ behind.now)) }
{
    line.extend_from_slice(before)?;
    line.extend_from_slice(name.bytes())?;
    line.extend_from_slice(behind)?;
    Ok(())
}

/// Appends that there are too many of these.
fn add_limit(line: &mut Vec<u8>, which: Which) -> Result<(), AllocError>
    ensures { OnOk result (line.new.items ≡ line.old.items ++ (codes "too many " ++ which_text which)) }
{
    line.extend_from_slice(b"too many ")?;
    line.extend_from_slice(which_text(which))?;
    Ok(())
}

/// Appends what is said of a class that linking refuses.
pub fn add_link_text(line: &mut Vec<u8>, kind: &LinkKind) -> Result<(), AllocError>
    ensures { OnOk result (line.new.items ≡ line.old.items ++ link_text kind.now) }
{
    match kind {
        LinkKind::Limit(which) => add_limit(line, *which),
        LinkKind::ClassTwice => line.extend_from_slice(b"defined twice"),
        LinkKind::FieldTwice(name) => add_named(line, b"field ", name, b" twice"),
        LinkKind::MethodTwice(name) => add_named(line, b"method ", name, b" twice"),
        LinkKind::NoClass(name) => add_named(line, b"no class ", name, b""),
        LinkKind::SuperKind => line.extend_from_slice(b"wrong kind of superclass or interface"),
        LinkKind::FinalSuper => line.extend_from_slice(b"superclass is final"),
        LinkKind::SuperCycle => line.extend_from_slice(b"superclass cycle"),
        LinkKind::Body(name) => add_named(line, b"body of ", name, b" missing or not allowed"),
        LinkKind::FinalOverride(name) => add_named(line, b"", name, b" overrides a final method"),
        LinkKind::NoField(reference) => add_named(line, b"no field ", reference, b""),
        LinkKind::NoMethod(reference) => add_named(line, b"no method ", reference, b""),
        LinkKind::PrivateAccess(reference) => add_named(line, b"", reference, b" is private"),
        LinkKind::NoMain => line.extend_from_slice(b"no main method"),
    }
}
