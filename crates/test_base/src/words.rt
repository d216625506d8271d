// Clones, with ample memory.
use dv_defs::{Base, ClassId, MethodId, Seq, Ty};
use dv_words::{Frame, Kept, Kind};
use std::test::Fail;

#[test]
fn clones_are_equal(rt: HostRuntime) -> Result<(), Fail> {
    let frame = Frame {
        method: MethodId(3),
        at: 7,
        regs: Seq::of(vec![in rt.alloc(); 1u32, 0xffff_ffff]?),
        result: Kept::Two(4, 5),
        caught: Some(9),
    };
    assert_eq!(rt; frame.clone()?, frame);
    for kind in [
        Kind::Object(ClassId(2)),
        Kind::Array(Ty {
            dims: 1,
            base: Base::J,
        }),
        Kind::Str,
        Kind::ClassOf(Ty {
            dims: 0,
            base: Base::I,
        }),
    ] {
        assert_eq!(rt; kind.clone()?, kind);
    }
    Ok(())
}
