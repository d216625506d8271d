// Flags as they are printed.
ghost use Rattle.std.specs.Prelude.{◌≡◌, ◌++◌, OnOk};
ghost use Rattle.std.specs.List.{flat_map};
ghost use Rattle.dv_print.specs.Listing.{flag_word, flag_text, flags_text};

use dv_defs::Flag;
use std::alloc::AllocError;

/// The flags in the order in which they are printed.
const FLAGS: [Flag; 19] = [
    Flag::Public,
    Flag::Private,
    Flag::Protected,
    Flag::Static,
    Flag::Final,
    Flag::Synchronized,
    Flag::Volatile,
    Flag::Bridge,
    Flag::Transient,
    Flag::Varargs,
    Flag::Native,
    Flag::Interface,
    Flag::Abstract,
    Flag::Strictfp,
    Flag::Synthetic,
    Flag::Annotation,
    Flag::Enum,
    Flag::Constructor,
    Flag::DeclaredSynchronized,
];

fn flag_word(flag: Flag) -> &'static [u8]
    ensures { result.now ≡ flag_word flag }
{
    match flag {
        Flag::Public => b"public",
        Flag::Private => b"private",
        Flag::Protected => b"protected",
        Flag::Static => b"static",
        Flag::Final => b"final",
        Flag::Synchronized => b"synchronized",
        Flag::Volatile => b"volatile",
        Flag::Bridge => b"bridge",
        Flag::Transient => b"transient",
        Flag::Varargs => b"varargs",
        Flag::Native => b"native",
        Flag::Interface => b"interface",
        Flag::Abstract => b"abstract",
        Flag::Strictfp => b"strictfp",
        Flag::Synthetic => b"synthetic",
        Flag::Annotation => b"annotation",
        Flag::Enum => b"enum",
        Flag::Constructor => b"constructor",
        Flag::DeclaredSynchronized => b"declared-synchronized",
    }
}

/// Appends a flag with a blank behind it, where it is among the flags.
fn add_flag(text: &mut Vec<u8>, flags: u32, flag: Flag) -> Result<(), AllocError>
    ensures { OnOk result (text.new.items ≡ text.old.items ++ flag_text flags flag) }
{
    if flag.is_in(flags) {
        text.extend_from_slice(flag_word(flag))?;
        text.extend_from_slice(b" ")?;
    }
    Ok(())
}

/// Appends those of the flags in a list that are among the flags.
fn add_flags(text: &mut Vec<u8>, flags: u32, list: &[Flag]) -> Result<(), AllocError>
    ensures { OnOk result (text.new.items ≡ text.old.items ++ flat_map (flag_text flags) list.now) }
{
    for flag in list {
        add_flag(text, flags, *flag)?;
    }
    Ok(())
}

/// Appends the flags that are set, each with a blank behind it.
pub fn add_set_flags(text: &mut Vec<u8>, flags: u32) -> Result<(), AllocError>
    ensures { OnOk result (text.new.items ≡ text.old.items ++ flags_text flags) }
{
    add_flags(text, flags, &FLAGS)
}
