// The typing rules, asked of the methods of a program by number and address.
ghost use Rattle.std.specs.Prelude.{◌≡◌, true, IfOk, IfSome};
ghost use Rattle.dv_defs.specs.Op.{Code};
ghost use Rattle.dv_rules.specs.Asking.{HasCode, HasInsn};

use crate::rule_rows::{DEMANDS, EDGES, ENTRIES, PROGRAM, STEPS};
use crate::states::{BOOT, StateRow, check, class_named, is_state, linked, state};
use dv_defs::{Image, MethodId, Rule};
use dv_ops::{begins_insn_at, coded_at, method_at};
use dv_rules::{Edge, edges, entry_state, ok, out};
use dv_static::static_faults;
use dv_typing::RegState;
use std::alloc::{AllocError, Global};
use std::process::Abort;

// Whether a method has a body that breaks no static rule.
fn is_clean(alloc: Global, image: &Image, method: MethodId) -> Result<bool, AllocError>
    ensures { IfOk result (λ clean. clean ≡ true → (code : Code) × HasCode image.now method.0 code) }
{
    match coded_at(image, method) {
        Some(_) => {
            let faults = static_faults(alloc, image, method)?;
            let is_clean = faults.is_empty();
            drop(faults);
            Ok(is_clean)
        }
        None => Ok(false),
    }
}

// The number of registers of such a body, where an instruction begins at an address of it.
fn registers_at(image: &Image, method: MethodId, at: u32) -> Option<u16>
    requires { (code : Code) × HasCode image.now method.0 code }
    ensures { IfSome result (λ n. (code : Code) × HasInsn image.now method.0 at code × (code.body.registers ≡ n)) }
{
    let code = coded_at(image, method)?;
    if !begins_insn_at(&code, at) {
        return None;
    }
    let body = code.body;
    Some(body.registers)
}

// Whether a method of the program has this name.
fn is_named(image: &Image, method: MethodId, name: &str) -> bool {
    let Some(method) = method_at(image, method) else {
        return false;
    };
    method.info.class.0 >= BOOT && method.def.name.bytes() == name.as_bytes()
}

// The first method of the program that has this name.
fn method_of<R: Abort>(rt: &R, image: &Image, name: &str) -> MethodId {
    for number in 0..image.methods.len() {
        let method = MethodId(u32::try_from(number).ok().expect(rt, "a number"));
        if is_named(image, method, name) {
            return method;
        }
    }
    panic!(rt; "{name}")
}

fn assert_clean<R: Abort>(rt: &R, alloc: Global, image: &Image, method: MethodId)
    ensures { (code : Code) × HasCode image.now method.0 code }
{
    let clean = is_clean(alloc, image, method).ok().expect(rt, "memory");
    assert!(rt; clean);
}

fn entry_of<R: Abort>(rt: &R, alloc: Global, image: &Image, method: MethodId) -> RegState {
    assert_clean(rt, alloc, image, method);
    let entry = entry_state(alloc, image, method);
    entry.ok().expect(rt, "memory")
}

fn assert_entries<R: Abort>(rt: &R, alloc: Global, image: &Image, rows: &[(&str, StateRow)]) {
    for (name, row) in rows {
        let method = method_of(rt, image, name);
        let entry = entry_of(rt, alloc, image, method);
        assert!(rt; is_state(rt, alloc, entry, *row), "{name}");
    }
}

#[test]
fn methods_are_entered_as_the_rules_tell(rt: HostRuntime) {
    let image = linked(&rt, rt.alloc(), PROGRAM);
    assert_entries(&rt, rt.alloc(), &image, ENTRIES.as_slice());
    drop(image);
}

// The number of registers of a clean body, in which an instruction begins at the address.
fn registers_of<R: Abort>(rt: &R, alloc: Global, image: &Image, method: MethodId, at: u32) -> u16
    ensures { (code : Code) × HasInsn image.now method.0 at code × (code.body.registers ≡ result) }
{
    assert_clean(rt, alloc, image, method);
    registers_at(image, method, at).expect(rt, "an instruction")
}

fn state_after<R: Abort>(
    rt: &R,
    alloc: Global,
    image: &Image,
    method: MethodId,
    at: u32,
    before: &RegState,
) -> RegState {
    let registers = registers_of(rt, alloc, image, method, at);
    assert!(rt; before.regs.len() == registers as usize);
    let after = out(alloc, image, method, at, before);
    after.ok().expect(rt, "memory")
}

// The state after an instruction that is done in the state of a row.
fn step_from<R: Abort>(
    rt: &R,
    alloc: Global,
    image: &Image,
    method: MethodId,
    at: u32,
    before: StateRow,
) -> RegState {
    let before = state(rt, alloc, before);
    let after = state_after(rt, alloc, image, method, at, &before);
    drop(before);
    after
}

fn assert_steps<R: Abort>(
    rt: &R,
    alloc: Global,
    image: &Image,
    method: MethodId,
    rows: &[(u32, StateRow, StateRow)],
) {
    for (number, (at, before, after)) in rows.iter().enumerate() {
        let found = step_from(rt, alloc, image, method, *at, *before);
        check(rt, is_state(rt, alloc, found, *after), number);
    }
}

#[test]
fn instructions_change_states_as_the_rules_tell(rt: HostRuntime) {
    let image = linked(&rt, rt.alloc(), PROGRAM);
    let method = method_of(&rt, &image, "steps");
    assert_steps(&rt, rt.alloc(), &image, method, STEPS.as_slice());
    drop(image);
}

fn rule_broken<R: Abort>(
    rt: &R,
    alloc: Global,
    image: &Image,
    method: MethodId,
    at: u32,
    before: &RegState,
) -> Option<Rule> {
    let registers = registers_of(rt, alloc, image, method, at);
    assert!(rt; before.regs.len() == registers as usize);
    ok(image, method, at, before)
}

// The rule that the state of a row breaks.
fn rule_of<R: Abort>(
    rt: &R,
    alloc: Global,
    image: &Image,
    method: MethodId,
    at: u32,
    before: StateRow,
) -> Option<Rule> {
    let before = state(rt, alloc, before);
    let rule = rule_broken(rt, alloc, image, method, at, &before);
    drop(before);
    rule
}

fn assert_demands<R: Abort>(
    rt: &R,
    alloc: Global,
    image: &Image,
    rows: &[(&str, u32, StateRow, Option<Rule>)],
) {
    for (number, (name, at, before, broken)) in rows.iter().enumerate() {
        let method = method_of(rt, image, name);
        let found = rule_of(rt, alloc, image, method, *at, *before);
        check(rt, found == *broken, number);
    }
}

#[test]
fn instructions_demand_what_the_rules_tell(rt: HostRuntime) {
    let image = linked(&rt, rt.alloc(), PROGRAM);
    assert_demands(&rt, rt.alloc(), &image, DEMANDS.as_slice());
    drop(image);
}

fn edges_at<R: Abort>(
    rt: &R,
    alloc: Global,
    image: &Image,
    method: MethodId,
    at: u32,
) -> Vec<Edge> {
    let _registers = registers_of(rt, alloc, image, method, at);
    let edges = edges(alloc, image, method, at);
    edges.ok().expect(rt, "memory")
}

// Whether an edge leads there, and catches what a row says.
fn is_edge<R: Abort>(rt: &R, alloc: Global, edge: &Edge, to: u32, handler: Option<&str>) -> bool {
    let handler = class_named(rt, alloc, handler);
    let is_same = edge.to == to && edge.handler == handler;
    drop(handler);
    is_same
}

// The edges of an instruction are those of a row.
fn assert_edges_of<R: Abort>(
    rt: &R,
    alloc: Global,
    image: &Image,
    method: MethodId,
    at: u32,
    row: &[(u32, Option<&str>)],
) {
    let edges = edges_at(rt, alloc, image, method, at);
    assert_eq!(rt; edges.len(), row.len());
    for (edge, (to, handler)) in edges.iter().zip(row) {
        let is_same = is_edge(rt, alloc, edge, *to, *handler);
        assert!(rt; is_same, "at {at}");
    }
    drop(edges);
}

fn assert_edges<R: Abort>(
    rt: &R,
    alloc: Global,
    image: &Image,
    method: MethodId,
    rows: &[(u32, &[(u32, Option<&str>)])],
) {
    for (at, row) in rows {
        assert_edges_of(rt, alloc, image, method, *at, row);
    }
}

#[test]
fn states_flow_along_the_edges_of_the_rules(rt: HostRuntime) {
    let image = linked(&rt, rt.alloc(), PROGRAM);
    let method = method_of(&rt, &image, "ways");
    assert_edges(&rt, rt.alloc(), &image, method, EDGES.as_slice());
    drop(image);
}
