// Parts of the machine, as a maker of tools calls them.
ghost use Rattle.std.specs.Prelude.{◌≡◌, IfOk};

use crate::HostError;
use dv_asm::assemble;
use dv_boot::boot_text;
use dv_classread::read_classes;
use dv_console::{accepted_line, fault_line};
use dv_defs::{Body, ClassDef, Fault, Image, Insn, LineError, MethodId, Regs, Seq};
use dv_draft::{Draft, Draftop, Item, PoolRef, What};
use dv_hier::Classes;
use dv_lex::{is_number, lines, number};
use dv_print::print_class;
use dv_pverify::{VerifyError, verify_one_by_one};
use dv_resolve::{find_main, link};
use dv_units::{UnitError, decode, encode};
use std::alloc::{AllocError, Global};

/// The most bytes of a text.
const MOST: usize = 8_388_608;

/// An instruction as units of 16 bits, and read again from these.
pub fn read_again(alloc: Global, insn: &Insn) -> Result<Insn, UnitError>
    ensures { IfOk result (λ again. again ≡ insn.now) }
{
    let mut units = Vec::new(alloc);
    encode(insn, &mut units)?;
    let (again, _) = decode(&units, 0)?;
    Ok(again)
}

/// `const/4 v0, 5`.
const FIVE: Insn = Insn {
    op: 0x12,
    regs: Regs {
        count: 1,
        first: [0; 5],
        range: false,
    },
    lit: 5,
    off: 0,
    index: 0,
};

/// A body of one register and this instruction: its unit is 0x5012.
pub fn body_of_five(alloc: Global) -> Result<Body, LineError> {
    let five = Draftop {
        insn: FIVE,
        label: None,
        pool: PoolRef::None,
    };
    let item = Item {
        line: 1,
        what: What::Op(five),
    };
    let draft = Draft {
        registers: 1,
        items: Seq::of(vec![in alloc; item]?),
        catches: Seq::of(Vec::new(alloc)),
    };
    assemble(alloc, &draft)
}

/// The classes of a text, with their bodies assembled.
pub fn classes_of(alloc: Global, text: &[u8]) -> Result<Vec<ClassDef>, HostError> {
    if text.len() > MOST {
        return Err(HostError::TooLarge);
    }
    let read = read_classes(alloc, text, false)?;
    Ok(read.classes.into_vec())
}

/// The listings of classes as smali text, one behind another.
pub fn listings(alloc: Global, classes: &[ClassDef]) -> Result<Vec<u8>, AllocError> {
    let mut text = Vec::new(alloc);
    for class in classes {
        text.extend_from_slice(print_class(alloc, class)?.bytes())?;
    }
    Ok(text)
}

/// The classes of a text, linked behind the 33 boot classes.
pub fn linked(alloc: Global, text: &[u8]) -> Result<Image, HostError> {
    let mut classes = classes_of(alloc, boot_text().as_bytes())?;
    classes.append(&mut classes_of(alloc, text)?)?;
    match Classes::new(classes, 33) {
        Some(classes) => Ok(link(alloc, classes)?),
        None => Err(HostError::NoName),
    }
}

/// The number of the main method of `LMain;` among the image's methods.
pub fn main_of(alloc: Global, image: &Image) -> Result<MethodId, HostError> {
    Ok(find_main(alloc, image, b"LMain;")?)
}

/// How many methods of an image are accepted, or a line for each fault.
pub fn verdict(alloc: Global, image: Image) -> Result<Vec<u8>, AllocError> {
    match verify_one_by_one(alloc, image) {
        Ok(verified) => {
            let line = accepted_line(alloc, &verified.image);
            drop(verified);
            Vec::from_slice(alloc, line?.bytes())
        }
        Err(VerifyError::Faults { image, faults }) => {
            let lines = fault_lines(alloc, &image, faults.items());
            drop(image);
            drop(faults);
            lines
        }
        Err(VerifyError::Memory) => Err(AllocError),
    }
}

/// The line of each fault, one behind another.
fn fault_lines(alloc: Global, image: &Image, faults: &[Fault]) -> Result<Vec<u8>, AllocError> {
    let mut text = Vec::new(alloc);
    for fault in faults {
        text.extend_from_slice(fault_line(alloc, image, fault)?.bytes())?;
    }
    Ok(text)
}

/// The numbers of a text, each of which fits 32 bits.
pub fn numbers(alloc: Global, text: &[u8]) -> Result<Vec<i64>, HostError> {
    if text.len() > MOST {
        return Err(HostError::TooLarge);
    }
    let mut found = Vec::new(alloc);
    for line in &lines(alloc, text)? {
        for token in line.tokens.items() {
            let word = token.bytes(text);
            if is_number(word) {
                found.push(number(word, 32, line.number)?)?;
            }
        }
    }
    Ok(found)
}
