// What no text of a program shows: on which line a class begins. All else is in `cases/reading`.
use dv_classread::read_classes;

#[test]
fn classes_know_their_lines(rt: HostRuntime) {
    let text = b"\n\n.class Ljava/lang/Object;\n.class LA;\n.super LB;\n".as_slice();
    assert!(rt; text.len() < 1_000_000);
    let read = read_classes(rt.alloc(), text, false)
        .ok()
        .expect(&rt, "a text");
    match read.classes.items() {
        [object, a] => assert_eq!(rt; (object.line, a.line), (3, 4)),
        _ => panic!(rt; "other classes"),
    }
}
