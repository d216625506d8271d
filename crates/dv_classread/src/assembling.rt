// Classes whose bodies are assembled.
ghost use Rattle.std.specs.Prelude.{◌≡◌};
ghost use Rattle.dv_coderead.specs.Giving.{GivesLines};
ghost use Rattle.dv_classread.specs.Assembling.{assembled, assembled_class, assembled_method, classes_of, methods_of};

use crate::program::{BodyDraft, ClassDraft, MethodDraft};
use dv_asm::assemble;
use dv_defs::{Body, ClassDef, LineError, MethodDef, Seq};
use std::alloc::Global;

#[tactic(auto, unfolding(crate::specs::Assembling::assembled))]
fn assembled_body(alloc: Global, body: Option<BodyDraft>) -> Result<Option<Body>, LineError>
    ensures { GivesLines (λ b. b) result (assembled body) }
{
    match body {
        None => Ok(None),
        Some(BodyDraft::Raw(body)) => Ok(Some(body)),
        Some(BodyDraft::Drafted(draft)) => {
            let body = assemble(alloc, &draft);
            drop(draft);
            Ok(Some(body?))
        }
    }
}

fn assembled_method(alloc: Global, method: MethodDraft) -> Result<MethodDef, LineError>
    ensures { GivesLines (λ m. m) result (assembled_method method) }
{
    let MethodDraft { signature, body } = method;
    match assembled_body(alloc, body) {
        Ok(body) => Ok(MethodDef {
            name: signature.name,
            proto: signature.proto,
            flags: signature.flags,
            body,
        }),
        Err(error) => {
            drop(signature);
            Err(error)
        }
    }
}

fn assembled_methods(alloc: Global, methods: Seq<MethodDraft>) -> Result<Vec<MethodDef>, LineError>
    ensures { GivesLines (λ v. v.items) result (methods_of methods) }
{
    let mut done = Vec::new(alloc);
    for method in methods.into_vec() {
        done.push(assembled_method(alloc, method)?)?;
    }
    Ok(done)
}

fn assembled_class(alloc: Global, class: ClassDraft) -> Result<ClassDef, LineError>
    ensures { GivesLines (λ c. c) result (assembled_class class) }
{
    let ClassDraft {
        head,
        parent,
        interfaces,
        fields,
        methods,
    } = class;
    match assembled_methods(alloc, methods) {
        Ok(methods) => Ok(ClassDef {
            name: head.name,
            parent,
            interfaces,
            flags: head.flags,
            fields,
            methods: Seq::of(methods),
            line: head.line,
        }),
        Err(error) => {
            drop(head);
            drop(parent);
            drop(interfaces);
            drop(fields);
            Err(error)
        }
    }
}

/// The classes with their bodies assembled, method by method in the order of the text.
///
/// # Errors
///
/// The first refusal of a body, or want of memory.
pub fn assembled_classes(
    alloc: Global,
    classes: Vec<ClassDraft>,
) -> Result<Vec<ClassDef>, LineError>
    ensures { GivesLines (λ v. v.items) result (classes_of classes.items) }
{
    let mut done = Vec::new(alloc);
    for class in classes {
        done.push(assembled_class(alloc, class)?)?;
    }
    Ok(done)
}
