// A run of a method that isn't there, and questions about threads that aren't there.
use crate::run::{AMPLE, RUN};
use crate::running::image_of;
use dv_core::{Step, Vm};
use dv_defs::{Ending, Image, MethodId};
use std::alloc::Global;
use std::process::Abort;

/// No method has this number.
const NO_METHOD: MethodId = MethodId(1_000_000);

/// No question about a thread and no step of it finds one.
fn assert_nobody<R: Abort>(rt: &R, image: &Image, vm: &mut Vm) {
    assert!(rt; vm.guest.threads.ends.is_empty());
    assert_eq!(rt; vm.ending(image), Some(Ending::Done));
    for thread in [0, 1, 63, u32::MAX] {
        assert!(rt; !vm.runnable(image, thread));
        assert!(rt; vm.blocked(image, thread).is_none());
        assert!(rt; matches!(vm.step(image, thread), Ok(Step::Held)));
        assert_eq!(rt; vm.steps, 0);
    }
}

/// A run of no method.
fn assert_without_method<R: Abort>(rt: &R, alloc: Global, image: &Image) {
    let opened = Vm::open(alloc, image, NO_METHOD, AMPLE);
    let mut vm = opened.ok().expect(rt, "memory");
    assert_nobody(rt, image, &mut vm);
    drop(vm);
}

#[test]
fn without_a_method_no_thread_is_there(rt: HostRuntime) {
    let verified = image_of(&rt, rt.alloc(), &RUN);
    assert_without_method(&rt, rt.alloc(), &verified.image);
    drop(verified);
}
