// The state of a class that isn't there (JLS 12.4).
use crate::fixtures::linked;
use dv_clinit::{ClassStates, State, initialiser};
use dv_defs::{ClassId, Image};
use std::process::Abort;

const BOOT: u32 = 33;

fn assert_states<R: Abort>(rt: &R, image: &Image, states: &ClassStates) {
    for class in 0..BOOT {
        assert!(rt; states.state(ClassId(class)) == State::Ready, "{class}");
    }
    assert!(rt; states.state(ClassId(BOOT)) == State::Fresh);
    assert!(rt; initialiser(image, ClassId(BOOT)).is_none());
}

// A class of a program without classes, behind the boot classes.
#[test]
fn a_class_that_is_not_there_is_fresh(rt: HostRuntime) {
    let image = linked(&rt, rt.alloc(), "");
    match ClassStates::new(rt.alloc(), &image) {
        Ok(states) => {
            assert_states(&rt, &image, &states);
            drop(states);
        }
        Err(_) => panic!(&rt; "memory"),
    }
    drop(image);
}
