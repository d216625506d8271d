// What is printed, before it is written.
ghost use Rattle.std.specs.Prelude.{◌≡◌, ◌≤◌, ◌++◌, IfOk, OnErr, OnOk};
ghost use Rattle.dv_console.specs.Faults.{fault_text};
ghost use Rattle.dv_io.specs.Io.{HasRisen, TookPart, after_write};
ghost use Rattle.dv_top.specs.Printed.{fault_head, fault_tail, method_lines, printed_lines};
ghost use Rattle.dv_top.specs.Said.{fault_lines};

use crate::writing::write_all;
use dv_console::{fault_line, method_fault_line};
use dv_defs::{Fault, Image, Text};
use dv_io::{Failed, Sink};
use std::alloc::{AllocError, Global};
use std::marker::Model;

/// The lines of a method's faults: what each begins with, and what stands behind it, line by line.
#[derive(Drop)]
pub struct MethodFaults {
    head: Text,
    tails: Vec<Text>,
}

/// Bytes, and behind them the lines of faults. A method's name stands once, however many faults it has, and writing takes no memory.
#[derive(Drop)]
pub struct Printed {
    bytes: Vec<u8>,
    faults: Vec<MethodFaults>,
}

impl Model for Printed {
    ghost use Rattle.std.specs.Prelude.{◌++◌};
    ghost use Rattle.dv_top.specs.Printed.{PrintedValue, printed_lines};

    ghost Value = { PrintedValue };

    ghost view = { λ p. record { items = p.bytes.items ++ printed_lines p.faults.items } };
}

impl Printed {
    /// These bytes alone.
    pub fn of(bytes: Vec<u8>) -> Printed
        ensures { result.items ≡ bytes.items }
    {
        let faults = Vec::new(*bytes.allocator());
        Printed { bytes, faults }
    }

    /// The lines of an image's faults.
    pub fn of_faults(alloc: Global, image: &Image, faults: &[Fault]) -> Result<Printed, AllocError>
        ensures { IfOk result (λ printed. printed.items ≡ fault_lines image.now faults.now) }
    {
        let faults = methods_of(alloc, image, faults)?;
        Ok(Printed {
            bytes: Vec::new(alloc),
            faults,
        })
    }

    /// Writes all of it to a sink.
    pub fn write<K: Sink>(&self, sink: &mut K) -> Result<(), Failed>
        ensures ok { OnOk result (K.taken sink.new ≡ after_write self.now.items (K.taken sink.old)) }
        ensures part { TookPart (K.taken sink.old) (K.taken sink.new) self.now.items }
        ensures count { K.faults sink.old ≤ K.faults sink.new }
        ensures failed { OnErr result (HasRisen (K.faults sink.old) (K.faults sink.new)) }
    {
        write_all(sink, &self.bytes)?;
        write_methods(sink, &self.faults)
    }
}

/// Faults by their methods.
fn methods_of(
    alloc: Global,
    image: &Image,
    faults: &[Fault],
) -> Result<Vec<MethodFaults>, AllocError>
    ensures { IfOk result (λ methods. printed_lines methods.items ≡ fault_lines image.now faults.now) }
{
    let mut methods = Vec::new(alloc);
    for fault in faults {
        add_fault(alloc, image, &mut methods, fault)?;
    }
    Ok(methods)
}

/// Adds the line of a fault.
fn add_fault(
    alloc: Global,
    image: &Image,
    methods: &mut Vec<MethodFaults>,
    fault: &Fault,
) -> Result<(), AllocError>
    ensures { OnOk result (printed_lines methods.new.items ≡ printed_lines methods.old.items ++ fault_text image.now fault.now) }
{
    let tail = tail_of(alloc, fault)?;
    let head = head_of(alloc, image, fault, &tail)?;
    match methods.pop() {
        Some(last) => add_behind(alloc, methods, last, head, tail),
        None => add_first(alloc, methods, head, tail),
    }
}

/// What each line of a method's faults begins with.
fn head_of(alloc: Global, image: &Image, fault: &Fault, tail: &Text) -> Result<Text, AllocError>
    requires { tail.now ≡ fault_tail fault.now }
    ensures { IfOk result (λ head. head ≡ fault_head image.now fault.now) }
{
    let line = fault_line(alloc, image, fault)?;
    let length = line.bytes().len() - tail.bytes().len();
    Text::of(Vec::from_slice(alloc, &line.bytes()[..length])?)
}

/// What stands behind the method in a fault's line.
fn tail_of(alloc: Global, fault: &Fault) -> Result<Text, AllocError>
    ensures { IfOk result (λ tail. tail ≡ fault_tail fault.now) }
{
    let line = method_fault_line(alloc, b"", fault)?;
    Text::of(Vec::from_slice(alloc, &line.bytes()[b"#fault ".len()..])?)
}

/// Adds a line behind those of the method before, which may be its own.
fn add_behind(
    alloc: Global,
    methods: &mut Vec<MethodFaults>,
    last: MethodFaults,
    head: Text,
    tail: Text,
) -> Result<(), AllocError>
    ensures { OnOk result (printed_lines methods.new.items ≡ printed_lines methods.old.items ++ (method_lines last ++ (head ++ tail))) }
{
    let mut last = last;
    if last.head == head {
        last.tails.push(tail)?;
        methods.push(last)?;
        return Ok(());
    }
    methods.push(last)?;
    add_first(alloc, methods, head, tail)
}

/// Adds the first line of a method.
fn add_first(
    alloc: Global,
    methods: &mut Vec<MethodFaults>,
    head: Text,
    tail: Text,
) -> Result<(), AllocError>
    ensures { OnOk result (printed_lines methods.new.items ≡ printed_lines methods.old.items ++ (head ++ tail)) }
{
    let tails = vec![in alloc; tail]?;
    methods.push(MethodFaults { head, tails })?;
    Ok(())
}

/// Writes the lines of several methods' faults.
fn write_methods<K: Sink>(sink: &mut K, methods: &[MethodFaults]) -> Result<(), Failed>
    ensures ok { OnOk result (K.taken sink.new ≡ after_write (printed_lines methods.now) (K.taken sink.old)) }
    ensures part { TookPart (K.taken sink.old) (K.taken sink.new) (printed_lines methods.now) }
    ensures count { K.faults sink.old ≤ K.faults sink.new }
    ensures failed { OnErr result (HasRisen (K.faults sink.old) (K.faults sink.new)) }
{
    for method in methods {
        write_lines(sink, method)?;
    }
    Ok(())
}

/// Writes the lines of a method's faults.
fn write_lines<K: Sink>(sink: &mut K, method: &MethodFaults) -> Result<(), Failed>
    ensures ok { OnOk result (K.taken sink.new ≡ after_write (method_lines method.now) (K.taken sink.old)) }
    ensures part { TookPart (K.taken sink.old) (K.taken sink.new) (method_lines method.now) }
    ensures count { K.faults sink.old ≤ K.faults sink.new }
    ensures failed { OnErr result (HasRisen (K.faults sink.old) (K.faults sink.new)) }
{
    for tail in &method.tails {
        write_line(sink, &method.head, tail)?;
    }
    Ok(())
}

/// Writes a line in its two parts.
fn write_line<K: Sink>(sink: &mut K, head: &Text, tail: &Text) -> Result<(), Failed>
    ensures ok { OnOk result (K.taken sink.new ≡ after_write (head.now ++ tail.now) (K.taken sink.old)) }
    ensures part { TookPart (K.taken sink.old) (K.taken sink.new) (head.now ++ tail.now) }
    ensures count { K.faults sink.old ≤ K.faults sink.new }
    ensures failed { OnErr result (HasRisen (K.faults sink.old) (K.faults sink.new)) }
{
    write_all(sink, head.bytes())?;
    write_all(sink, tail.bytes())
}
