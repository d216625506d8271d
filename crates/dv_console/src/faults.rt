// The lines that tell faults of the verifier, and the line that tells that there are none.
ghost use Rattle.std.specs.Prelude.{◌≡◌, ◌++◌, codes, option_map, IfOk, OnOk};
ghost use Rattle.dv_defs.specs.Linked.{body_at};
ghost use Rattle.dv_defs.specs.Pools.{method_at, name_at};
ghost use Rattle.dv_console.specs.Faults.{accepted_text, address_text, fault_line_of, fault_text, is_verified, rule_text, signature, verified_count};

use dv_defs::{Body, ClassId, Fault, Image, MethodId, MethodInfo, Rule, Text};
use dv_names::print_proto;
use dv_ops::method_at;
use itoa::Buffer;
use std::alloc::{AllocError, Global};

/// The descriptor of a class; nothing where there is no class of that number.
fn name_at(image: &Image, class: ClassId) -> &[u8]
    ensures { result.now ≡ name_at image.now class.0 }
{
    match image.classes.items().get(class.0 as usize) {
        Some(class) => class.def.name.bytes(),
        None => b"",
    }
}

/// Appends the class, the name and the prototype of a method.
fn add_signature(line: &mut Vec<u8>, image: &Image, id: MethodId) -> Result<(), AllocError>
    ensures { OnOk result (line.new.items ≡ line.old.items ++ signature image.now (method_at image.now id.0)) }
{
    if let Some(method) = method_at(image, id) {
        line.extend_from_slice(name_at(image, method.info.class))?;
        line.extend_from_slice(b"->")?;
        line.extend_from_slice(method.def.name.bytes())?;
        let proto = print_proto(*line.allocator(), &method.def.proto)?;
        line.extend_from_slice(proto.bytes())?;
    }
    Ok(())
}

/// Appends an address, in four hexadecimal digits at least.
fn add_address(line: &mut Vec<u8>, address: u32) -> Result<(), AllocError>
    ensures { OnOk result (line.new.items ≡ line.old.items ++ address_text address) }
{
    let text = format!(in *line.allocator(); "{address:04x}")?;
    line.extend_from_slice(text.as_bytes())
}

/// Appends a letter and a number.
fn add_rule(line: &mut Vec<u8>, rule: Rule) -> Result<(), AllocError>
    ensures { OnOk result (line.new.items ≡ line.old.items ++ rule_text rule) }
{
    let (letter, number) = match rule {
        Rule::S(number) => (b'S', number),
        Rule::V(number) => (b'V', number),
    };
    line.push(letter)?;
    line.extend_from_slice(Buffer::new().format(number).as_bytes())
}

/// Appends where a method breaks a rule, and which one.
fn add_place(line: &mut Vec<u8>, fault: &Fault) -> Result<(), AllocError>
    ensures { OnOk result (line.new.items ≡ line.old.items ++ (codes " " ++ (address_text fault.now.address ++ (codes " " ++ (rule_text fault.now.rule ++ codes "\n"))))) }
{
    line.push(b' ')?;
    add_address(line, fault.address)?;
    line.push(b' ')?;
    add_rule(line, fault.rule)?;
    line.push(b'\n')?;
    Ok(())
}

/// The line of a fault, which LF ends: `#fault METHOD ADDRESS RULE`, with the method as `LX;->name(I)V`.
///
/// # Errors
///
/// Want of memory.
#[tactic(auto, unfolding(crate::specs::Faults::fault_line_of))]
pub fn fault_line(alloc: Global, image: &Image, fault: &Fault) -> Result<Text, AllocError>
    ensures { IfOk result (λ line. line ≡ fault_text image.now fault.now) }
{
    let mut line = Vec::from_slice(alloc, b"#fault ")?;
    add_signature(&mut line, image, fault.method)?;
    add_place(&mut line, fault)?;
    Text::of(line)
}

/// The line of a fault, as `fault_line` has it, for a method that is told by this text.
///
/// # Errors
///
/// Want of memory.
#[tactic(auto, unfolding(crate::specs::Faults::fault_line_of))]
pub fn method_fault_line(alloc: Global, method: &[u8], fault: &Fault) -> Result<Text, AllocError>
    ensures { IfOk result (λ line. line ≡ fault_line_of method.now fault.now) }
{
    let mut line = Vec::from_slice(alloc, b"#fault ")?;
    line.extend_from_slice(method)?;
    add_place(&mut line, fault)?;
    Text::of(line)
}

/// The body of a method, where it has one.
fn body_at<'a>(image: &'a Image, method: &MethodInfo) -> Option<&'a Body>
    ensures { option_map (λ b. b.now) result ≡ body_at image.now method.now }
{
    let class = image.classes.items().get(method.class.0 as usize)?;
    let method = class.def.methods.items().get(method.place as usize)?;
    method.body.as_ref()
}

/// Whether a method is the program's own, and not a boot class's, and has a body.
fn is_verified(image: &Image, method: &MethodInfo) -> bool
    ensures { result ≡ is_verified image.now method.now }
{
    method.class.0 >= image.boot && body_at(image, method).is_some()
}

/// The number of methods that are verified.
fn verified_count(image: &Image) -> usize
    ensures { result ≡ verified_count image.now }
{
    let methods = image.methods.items().iter();
    methods.filter(|method| is_verified(image, method)).count()
}

/// The line of an accepted program, which LF ends: `#accepted N methods`.
///
/// # Errors
///
/// Want of memory.
#[tactic(auto, unfolding(crate::specs::Faults::accepted_text))]
pub fn accepted_line(alloc: Global, image: &Image) -> Result<Text, AllocError>
    ensures { IfOk result (λ line. line ≡ accepted_text image.now) }
{
    let mut line = Vec::from_slice(alloc, b"#accepted ")?;
    line.extend_from_slice(Buffer::new().format(verified_count(image)).as_bytes())?;
    line.extend_from_slice(b" methods\n")?;
    Text::of(line)
}
