// The entries of a body's pools by their indices.
ghost use Rattle.std.specs.Prelude.{◌≡◌, Some, IfOk};
ghost use Rattle.dv_print.specs.Drafting.{entry_in};

use dv_defs::{Body, PoolKind};
use dv_draft::PoolRef;
use std::alloc::AllocError;

fn string_entry(body: &Body, index: u32) -> Result<PoolRef, AllocError>
    ensures { IfOk result (λ r. r ≡ entry_in body.now (Some PoolKind.Strings) index) }
{
    match body.strings.items().get(index as usize) {
        Some(chars) => Ok(PoolRef::Str(chars.clone()?)),
        None => Ok(PoolRef::None),
    }
}

fn type_entry(body: &Body, index: u32) -> Result<PoolRef, AllocError>
    ensures { IfOk result (λ r. r ≡ entry_in body.now (Some PoolKind.Types) index) }
{
    match body.types.items().get(index as usize) {
        Some(ty) => Ok(PoolRef::OfType(ty.clone()?)),
        None => Ok(PoolRef::None),
    }
}

fn field_entry(body: &Body, index: u32) -> Result<PoolRef, AllocError>
    ensures { IfOk result (λ r. r ≡ entry_in body.now (Some PoolKind.Fields) index) }
{
    match body.fields.items().get(index as usize) {
        Some(field) => Ok(PoolRef::Field(field.clone()?)),
        None => Ok(PoolRef::None),
    }
}

fn method_entry(body: &Body, index: u32) -> Result<PoolRef, AllocError>
    ensures { IfOk result (λ r. r ≡ entry_in body.now (Some PoolKind.Methods) index) }
{
    match body.methods.items().get(index as usize) {
        Some(method) => Ok(PoolRef::Method(method.clone()?)),
        None => Ok(PoolRef::None),
    }
}

/// The entry at an index of a pool, if there is one.
pub fn entry_in(body: &Body, pool: Option<PoolKind>, index: u32) -> Result<PoolRef, AllocError>
    ensures { IfOk result (λ r. r ≡ entry_in body.now pool index) }
{
    match pool {
        None => Ok(PoolRef::None),
        Some(PoolKind::Strings) => string_entry(body, index),
        Some(PoolKind::Types) => type_entry(body, index),
        Some(PoolKind::Fields) => field_entry(body, index),
        Some(PoolKind::Methods) => method_entry(body, index),
    }
}
