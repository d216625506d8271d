// Each call once, and what no clause says.
use dv_defs::{
    Base, Chars, Flag, Init, LineError, LinkError, MethodRef, Pool, Proto, Seq, Text, Ty,
};
use dv_typing::{PendingType, RegState, RegType};
use std::alloc::{AllocError, Global};
use std::test::Fail;

fn text(alloc: Global, bytes: &[u8]) -> Result<Text, AllocError> {
    Text::of(Vec::from_slice(alloc, bytes)?)
}

fn class_of(alloc: Global, dims: u8, name: &[u8]) -> Result<Ty, AllocError> {
    Ok(Ty {
        dims,
        base: Base::Class(text(alloc, name)?),
    })
}

#[test]
fn a_seq_keeps_its_items(rt: HostRuntime) -> Result<(), Fail> {
    let mut seq = Seq::of(vec![in rt.alloc(); 1u8, 2]?);
    seq.reserve(4)?;
    seq.push(3)?;
    assert_eq!(rt; seq.items(), [1, 2, 3].as_slice());
    assert_eq!(rt; seq.len(), 3);
    assert_eq!(rt; seq.pop(), Some(3));
    assert!(rt; !seq.is_empty());
    let items = seq.items_mut();
    assert_eq!(rt; items.len(), 2);
    items[0] = 9;
    let copy = seq.clone()?;
    assert_eq!(rt; copy, seq);
    assert_eq!(rt; seq.into_vec().as_slice(), [9, 2].as_slice());
    Ok(())
}

#[test]
fn a_pool_has_each_entry_once(rt: HostRuntime) -> Result<(), Fail> {
    let alloc = rt.alloc();
    let (main, other) = (text(alloc, b"LMain;")?, text(alloc, b"LOther;")?);
    let mut pool = Pool::new(alloc);
    pool.add(&main)?;
    pool.add(&other)?;
    pool.add(&main)?;
    assert_eq!(rt; pool.place_of(&other), Some(1));
    assert_eq!(rt; pool.place_of(&text(alloc, b"LNone;")?), None);
    assert_eq!(rt; pool.into_seq()?.items(), [main, other].as_slice());
    Ok(())
}

#[test]
fn texts_and_chars_are_their_items(rt: HostRuntime) -> Result<(), Fail> {
    let name = text(rt.alloc(), b"LMain;")?;
    assert_eq!(rt; name.bytes(), b"LMain;".as_slice());
    assert_eq!(rt; name.clone()?, name);
    let chars = Chars::of(vec![in rt.alloc(); 0xd800u16, 0x41]?);
    assert_eq!(rt; chars.units(), [0xd800, 0x41].as_slice());
    assert_eq!(rt; chars.clone()?, chars);
    Ok(())
}

#[test]
fn flags_are_bits_in_printing_order(rt: HostRuntime) -> Result<(), Fail> {
    let rows = [
        (Flag::Public, 1),
        (Flag::Private, 2),
        (Flag::Static, 8),
        (Flag::Final, 16),
        (Flag::Native, 1024),
        (Flag::Interface, 2048),
        (Flag::Abstract, 4096),
        (Flag::DeclaredSynchronized, 262144),
    ];
    for (flag, bit) in rows {
        assert_eq!(rt; flag.bit(), bit);
        assert!(rt; flag.is_in(bit));
        assert!(rt; !flag.is_in(!bit));
    }
    Ok(())
}

#[test]
fn a_number_is_of_the_types_that_hold_it(rt: HostRuntime) -> Result<(), Fail> {
    let rows = [
        (Base::Z, 1, 2),
        (Base::Z, 0, -1),
        (Base::B, -128, 128),
        (Base::B, 127, -129),
        (Base::C, 65535, -1),
        (Base::S, -32768, 32768),
        (Base::I, 2147483647, 2147483648),
        (Base::I, -2147483648, -2147483649),
    ];
    for (base, inside, outside) in rows {
        assert!(rt; base.holds(inside));
        assert!(rt; !base.holds(outside));
    }
    assert!(rt; Base::J.holds(i64::MIN));
    assert!(rt; !Base::Class(text(rt.alloc(), b"LMain;")?).holds(0));
    Ok(())
}

#[test]
fn a_value_stands_on_a_static_field_that_it_fits(rt: HostRuntime) -> Result<(), Fail> {
    let alloc = rt.alloc();
    let string = class_of(alloc, 0, b"Ljava/lang/String;")?;
    let object = class_of(alloc, 0, b"Ljava/lang/Object;")?;
    let strings = class_of(alloc, 1, b"Ljava/lang/String;")?;
    let int = Ty {
        dims: 0,
        base: Base::I,
    };
    let greeting = Init::Str(Chars::of(vec![in alloc; 0x68u16, 0x69]?));
    assert!(rt; greeting.fits(&string) && greeting.fits(&object));
    assert!(rt; !greeting.fits(&strings) && !greeting.fits(&int));
    assert!(rt; Init::Null.fits(&strings) && !Init::Null.fits(&int));
    assert!(rt; strings.is_reference() && !int.is_reference());
    assert!(rt; object.is_class(b"Ljava/lang/Object;") && !strings.is_class(b"Ljava/lang/String;"));
    assert!(rt; Init::Num(5).may_stand(&int, 8) && !Init::Num(5).may_stand(&int, 0));
    assert!(rt; Init::Absent.may_stand(&int, 0) && !Init::Num(5).may_stand(&string, 8));
    Ok(())
}

fn println_ref(alloc: Global) -> Result<MethodRef, AllocError> {
    let mut params = Vec::new(alloc);
    params.push(Ty {
        dims: 0,
        base: Base::I,
    })?;
    Ok(MethodRef {
        class: class_of(alloc, 0, b"Ldvm/Console;")?,
        name: text(alloc, b"println")?,
        proto: Proto {
            params: Seq::of(params),
            ret: None,
        },
    })
}

#[test]
fn a_reference_is_cloned_whole(rt: HostRuntime) -> Result<(), Fail> {
    let println = println_ref(rt.alloc())?;
    assert_eq!(rt; println.clone()?, println);
    Ok(())
}

#[test]
fn a_state_is_cloned_whole(rt: HostRuntime) -> Result<(), Fail> {
    let alloc = rt.alloc();
    let mut regs = Vec::new(alloc);
    regs.push(RegType::Class(class_of(alloc, 1, b"LMain;")?))?;
    regs.push(RegType::Uninit(6))?;
    let state = RegState {
        regs: Seq::of(regs),
        result: PendingType::One(RegType::Int),
        caught: None,
        this_pending: false,
    };
    let copy = state.clone()?;
    assert!(rt; copy.regs == state.regs);
    assert!(rt; matches!(copy.result, PendingType::One(RegType::Int)));
    assert!(rt; copy.caught.is_none() && !copy.this_pending);
    Ok(())
}

#[test]
fn want_of_memory_is_an_error_of_its_own(rt: HostRuntime) -> Result<(), Fail> {
    assert_eq!(rt; LineError::from(AllocError), LineError::Memory);
    assert!(rt; matches!(LinkError::from(AllocError), LinkError::Memory));
    Ok(())
}
