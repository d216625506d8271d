// What of an image, of a schedule and of a main method no text shows. What is refused is told by the cases of `cases/top`.
use dv_console::Refusal;
use dv_defs::{Entry, Image, LinkKind};
use dv_load::{ProgramError, Scheduled, main_method, read_program, read_scheduled};
use std::alloc::{AllocError, Global};
use std::process::Abort;
use std::test::Fail;

// Two classes and a schedule.
const SCHEDULED: &str = ".class LB;
.super LA;
.class LA;
.super Ljava/lang/Object;
.method static f()V
.registers 0
return-void
.end method
.method static main()V
.registers 0
return-void
.end method
.schedule
# first
2 0 9

7 63 256
2 0 9
.end schedule
# last
";

fn entry(worker: u32, thread: u32, steps: u32) -> Entry {
    Entry {
        worker,
        thread,
        steps,
    }
}

fn scheduled<R: Abort>(rt: &R, alloc: Global) -> Scheduled {
    assert!(rt; SCHEDULED.len() < 1_000_000);
    read_scheduled(alloc, SCHEDULED.as_bytes())
        .ok()
        .expect(rt, "a program")
}

#[test]
fn a_text_gives_its_classes_behind_the_boot_classes_and_its_schedule(rt: HostRuntime) {
    let scheduled = scheduled(&rt, rt.alloc());
    assert_classes(&rt, &scheduled.image, 35);
    let log = [entry(2, 0, 9), entry(7, 63, 256), entry(2, 0, 9)];
    assert_eq!(rt; scheduled.log.items(), log.as_slice());
    drop(scheduled);
}

/// So many classes, of which 33 are the boot classes.
fn assert_classes<R: Abort>(rt: &R, image: &Image, count: usize) {
    assert_eq!(rt; image.classes.len(), count);
    assert_eq!(rt; image.boot, 33);
}

#[test]
fn no_text_gives_the_boot_classes(rt: HostRuntime) {
    let text = b"".as_slice();
    assert!(rt; text.len() < 1_000_000);
    let image = read_program(rt.alloc(), text).ok().expect(&rt, "a program");
    assert_classes(&rt, &image, 33);
    drop(image);
}

// The class and the place of a main method, or the refusal.
type Outcome = Result<(u32, u32), Refusal>;

fn main_of<R: Abort>(
    rt: &R,
    alloc: Global,
    image: &Image,
    class: &str,
) -> Result<Outcome, AllocError> {
    match main_method(alloc, image, class.as_bytes()) {
        Ok(main) => {
            let method = image.methods.items().get(main.0 as usize);
            let method = method.expect(rt, "a method");
            Ok(Ok((method.class.0, method.place)))
        }
        Err(ProgramError::Refused(refusal)) => Ok(Err(refusal)),
        Err(ProgramError::Memory) => Err(AllocError),
    }
}

fn is_no_class(outcome: &Outcome, name: &str) -> bool {
    match outcome {
        Err(Refusal::Link(class, LinkKind::NoClass(sought))) => {
            class.bytes() == name.as_bytes() && sought.bytes() == name.as_bytes()
        }
        _ => false,
    }
}

fn assert_main<R: Abort>(rt: &R, alloc: Global, image: &Image) -> Result<(), AllocError> {
    let main = main_of(rt, alloc, image, "LA;")?;
    assert!(rt; matches!(main, Ok((34, 1))));
    drop(main);
    Ok(())
}

fn assert_no_class<R: Abort>(
    rt: &R,
    alloc: Global,
    image: &Image,
    class: &str,
) -> Result<(), AllocError> {
    let main = main_of(rt, alloc, image, class)?;
    assert!(rt; is_no_class(&main, class), "{class}");
    drop(main);
    Ok(())
}

fn assert_mains<R: Abort>(rt: &R, alloc: Global, image: &Image) -> Result<(), AllocError> {
    assert_main(rt, alloc, image)?;
    // names that are no descriptors
    for class in ["LA", ""] {
        assert_no_class(rt, alloc, image, class)?;
    }
    Ok(())
}

#[test]
fn a_main_method_is_told_by_its_number(rt: HostRuntime) -> Result<(), Fail> {
    let scheduled = scheduled(&rt, rt.alloc());
    let done = assert_mains(&rt, rt.alloc(), &scheduled.image);
    drop(scheduled);
    done?;
    Ok(())
}
