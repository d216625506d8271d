// The boot classes are those that each program finds beside its own.
ghost use Rattle.std.specs.Prelude.{◌≡◌, filter, IfOk};
ghost use Rattle.std.specs.List.{list_any};
ghost use Rattle.dv_defs.specs.declared.faults.LinkKind.TheVariants as kind;
ghost use Rattle.dv_defs.specs.declared.faults.LinkError.TheVariants as error;
ghost use Rattle.dv_defs.specs.First.{first_in};
ghost use Rattle.dv_defs.specs.Boot.{is_row_of, field_is, fields_are, method_is, methods_are};
ghost use Rattle.dv_defs.specs.LinkFaults.{Checks, boot_fault};
ghost use Rattle.dv_hier.specs.Tables.{class_table, field_table, method_table, class_is_by, has_row_by, row_lacks_by, is_foreign_by};

use crate::boot_rows::{Row, flags_are, names_are, parent_is, result_is, rows, type_is, types_are};
use dv_defs::{
    BOOT_CLASSES, BOOT_FIELDS, BOOT_METHODS, ClassDef, FieldDef, LinkError, LinkKind, MethodDef,
    Text,
};
use std::alloc::{AllocError, Global};

/// The table's rows: of classes, of fields and of methods.
#[derive(Drop)]
struct Table {
    classes: Vec<Row>,
    fields: Vec<Row>,
    methods: Vec<Row>,
}

/// The table of boot classes.
#[tactic(auto, unfolding(crate::specs::Tables::class_table, crate::specs::Tables::field_table, crate::specs::Tables::method_table))]
fn boot_table(alloc: Global) -> Result<Table, AllocError>
    ensures classes { IfOk result (λ table. table.classes.items ≡ class_table) }
    ensures fields { IfOk result (λ table. table.fields.items ≡ field_table) }
    ensures methods { IfOk result (λ table. table.methods.items ≡ method_table) }
{
    Ok(Table {
        classes: rows(alloc, BOOT_CLASSES)?,
        fields: rows(alloc, BOOT_FIELDS)?,
        methods: rows(alloc, BOOT_METHODS)?,
    })
}

/// Whether a field is as the row has it.
fn field_is(row: &Row, field: &FieldDef) -> bool
    ensures { result ≡ field_is row.now field.now }
{
    flags_are(row.word(1), field.flags)
        && row.word(2) == field.name.bytes()
        && type_is(row.word(3), &field.ty)
}

/// Whether fields are as the rows of the class have them, in their order.
fn fields_are(rows: &[Row], class: &[u8], fields: &[FieldDef]) -> bool
    ensures { result ≡ fields_are (filter (is_row_of class.now) rows.now) fields.now }
{
    let mut told = 0;
    for row in rows {
        if row.is_of(class) {
            if told == fields.len() || !field_is(row, &fields[told]) {
                return false;
            }
            told += 1;
        }
    }
    told == fields.len()
}

/// Whether a method is as the row has it.
fn method_is(row: &Row, method: &MethodDef) -> bool
    ensures { result ≡ method_is row.now method.now }
{
    flags_are(row.word(1), method.flags)
        && row.word(2) == method.name.bytes()
        && result_is(row.word(3), &method.proto.ret)
        && types_are(row.words_from(4), method.proto.params.items())
}

/// Whether methods are as the rows of the class have them, in their order.
fn methods_are(rows: &[Row], class: &[u8], methods: &[MethodDef]) -> bool
    ensures { result ≡ methods_are (filter (is_row_of class.now) rows.now) methods.now }
{
    let mut told = 0;
    for row in rows {
        if row.is_of(class) {
            if told == methods.len() || !method_is(row, &methods[told]) {
                return false;
            }
            told += 1;
        }
    }
    told == methods.len()
}

/// Whether a class is as the row and the rows of its members have it.
fn class_is(table: &Table, row: &Row, class: &ClassDef) -> bool
    ensures { result ≡ class_is_by table.now.fields.items table.now.methods.items row.now class.now }
{
    let name = row.word(0);
    flags_are(row.word(1), class.flags)
        && parent_is(row.word(2), &class.parent)
        && names_are(row.words_from(3), class.interfaces.items())
        && fields_are(&table.fields, name, class.fields.items())
        && methods_are(&table.methods, name, class.methods.items())
}

/// Whether the first class of the row's name is as the row has it.
fn has_row(table: &Table, classes: &[ClassDef], row: &Row) -> bool
    ensures { result ≡ has_row_by table.now.fields.items table.now.methods.items classes.now row.now }
{
    let name = row.word(0);
    match classes.iter().find(|class| class.name.bytes() == name) {
        Some(class) => class_is(table, row, class),
        None => false,
    }
}

/// The refusal that tells that the table and the boot classes don't agree on the class of this name.
fn not_there(alloc: Global, name: &[u8]) -> Result<LinkError, AllocError>
    ensures { IfOk result (λ e. e ≡ error.At name.now (kind.NoClass name.now)) }
{
    let class = Text::of(name.to_vec(alloc)?)?;
    let kind = LinkKind::NoClass(class.clone()?);
    Ok(LinkError::At { class, kind })
}

/// The first row whose class isn't there as the row has it.
fn check_rows(alloc: Global, table: &Table, classes: &[ClassDef]) -> Result<(), LinkError>
    ensures { Checks result (first_in (row_lacks_by table.now.fields.items table.now.methods.items classes.now) table.now.classes.items) }
{
    for row in &table.classes {
        if !has_row(table, classes, row) {
            return Err(not_there(alloc, row.word(0))?);
        }
    }
    Ok(())
}

/// Whether a row is the class's.
fn is_in_table(table: &Table, name: &[u8]) -> bool
    ensures { result ≡ list_any (is_row_of name.now) table.now.classes.items }
{
    table.classes.iter().any(|row| row.is_of(name))
}

/// The first class that no row is for.
fn check_foreign(alloc: Global, table: &Table, classes: &[ClassDef]) -> Result<(), LinkError>
    ensures { Checks result (first_in (is_foreign_by table.now.classes.items) classes.now) }
{
    for class in classes {
        let name = class.name.bytes();
        if !is_in_table(table, name) {
            return Err(not_there(alloc, name)?);
        }
    }
    Ok(())
}

/// The table's first class that isn't among the first `boot` classes as the table has it, else the first of these that the table doesn't have.
pub fn check_boot(alloc: Global, classes: &[ClassDef], boot: u32) -> Result<(), LinkError>
    ensures { Checks result (boot_fault classes.now boot) }
{
    let table = boot_table(alloc)?;
    let boot_classes = &classes[..classes.len().min(boot as usize)];
    check_rows(alloc, &table, boot_classes)?;
    check_foreign(alloc, &table, boot_classes)
}
