// The cells of objects, and the fields by number.
ghost use Rattle.std.specs.Prelude.{◌≡◌, ◌<◌, ◌+◌, ◌^◌, ◌++◌, ℕ, List, length, map, sum_by, zip, All, None, IfOk, OnOk};
ghost use Rattle.std.specs.List.{range_with_len};
ghost use Rattle.dv_defs.specs.declared.class.ClassDef.{ClassDef};
ghost use Rattle.dv_defs.specs.Images.{Image};
ghost use Rattle.dv_defs.specs.LinkFaults.{first_fault_by, on_cycle};
ghost use Rattle.dv_defs.specs.Linked.{defs, slotted};
ghost use Rattle.dv_defs.specs.Numbering.{numbered};
ghost use Rattle.dv_defs.specs.Order.{numbers};
ghost use Rattle.dv_defs.specs.Types as types;
ghost use Rattle.dv_hier.specs.Slots as spec;
ghost use Rattle.law_linking.specs.Stripped.{AreInRange};

use dv_defs::{Base, ClassDef, ClassId, ClassInfo, FieldDef, FieldId, FieldInfo, Flag, Seq, Ty};
use std::alloc::{AllocError, Global};

/// How many words a value of the type has.
fn words_of(ty: &Ty) -> u32
    ensures { result ≡ types.words_of ty.now }
{
    if ty.dims == 0 && matches!(ty.base, Base::J) {
        2
    } else {
        1
    }
}

/// Whether a field of the class has a cell in an object.
fn has_cell(class: &ClassDef, field: &FieldDef) -> bool
    ensures { result ≡ spec.has_cell class.now field.now }
{
    !Flag::Static.is_in(field.flags) && !Flag::Interface.is_in(class.flags)
}

/// The fields of cells in their order, and how many words the cells have.
#[derive(Drop)]
struct Cells {
    fields: Vec<FieldId>,
    words: u32,
}

impl Cells {
    /// Adds a class's own cells. `first` is the number of its first field.
    fn add(&mut self, class: &ClassDef, first: u32) -> Result<(), AllocError>
        requires few_fields { first + length class.now.fields < 2 ^ 32 }
        requires few_words { self.old.words + spec.words_in class.now class.now.fields < 2 ^ 32 }
        ensures fields { OnOk result (self.new.fields.items ≡ self.old.fields.items ++ spec.cells_from class.now first class.now.fields) }
        ensures words { OnOk result (self.new.words ≡ self.old.words + spec.words_in class.now class.now.fields) }
    {
        for (place, field) in class.fields.items().iter().enumerate() {
            if has_cell(class, field) {
                self.fields.push(FieldId(first + place as u32))?;
                self.words += words_of(&field.ty);
            }
        }
        Ok(())
    }
}

/// Adds a class's fields, with the slots of its cells, which stand after `words` words of its superclasses' cells.
fn add_fields(
    fields: &mut Vec<FieldInfo>,
    class: &ClassDef,
    id: ClassId,
    words: u32,
) -> Result<(), AllocError>
    requires few_fields { length class.now.fields < 2 ^ 32 }
    requires few_words { words + spec.words_in class.now class.now.fields < 2 ^ 32 }
    ensures { OnOk result (fields.new.items ≡ fields.old.items ++ spec.infos_from class.now id.0 0 words class.now.fields) }
{
    let mut end = words;
    for (place, field) in class.fields.items().iter().enumerate() {
        let mut slot = 0;
        if has_cell(class, field) {
            slot = end;
            end += words_of(&field.ty);
        }
        fields.push(FieldInfo {
            class: id,
            place: place as u32,
            slot,
        })?;
    }
    Ok(())
}

/// The number of each class's first field.
fn first_fields(alloc: Global, infos: &[ClassInfo]) -> Result<Vec<u32>, AllocError>
    requires few_fields { sum_by (λ c. length c.def.fields) infos.now < 2 ^ 31 }
    ensures { IfOk result (λ firsts. firsts.items ≡ map (spec.first_field infos.now) (range_with_len 0 (length infos.now))) }
{
    let mut firsts = Vec::new(alloc);
    let mut first = 0;
    for info in infos {
        firsts.push(first)?;
        first += info.def.fields.len() as u32;
    }
    Ok(firsts)
}

/// The superclasses of a class, nearest first.
fn superclasses(
    alloc: Global,
    infos: &[ClassInfo],
    class: usize,
) -> Result<Vec<ClassId>, AllocError>
    requires range { AreInRange infos.now }
    requires class { class < length infos.now }
    ensures chain { IfOk result (λ chain. numbers chain.items ≡ spec.superclasses infos.now class) }
    ensures range { IfOk result (λ chain. All (λ c. c.0 < length infos.now) chain.items) }
{
    let mut chain = Vec::new(alloc);
    let mut above = infos[class].parent;
    for _ in 1..infos.len() {
        let Some(id) = above else {
            return Ok(chain);
        };
        chain.push(id)?;
        above = infos[id.0 as usize].parent;
    }
    Ok(chain)
}

/// The cells of a chain of superclasses, nearest first. The farthest one's cells come first.
fn inherited(
    alloc: Global,
    infos: &[ClassInfo],
    firsts: &[u32],
    mut chain: Vec<ClassId>,
) -> Result<Cells, AllocError>
    requires range { All (λ c. c.0 < length infos.now) chain.items }
    requires few_fields { sum_by (λ c. length c.def.fields) infos.now < 2 ^ 31 }
    requires few_words { spec.chain_words infos.now (numbers chain.items) < 2 ^ 32 }
    requires firsts { firsts.now ≡ map (spec.first_field infos.now) (range_with_len 0 (length infos.now)) }
    ensures fields { IfOk result (λ cells. cells.fields.items ≡ spec.chain_cells infos.now (numbers chain.items)) }
    ensures words { IfOk result (λ cells. cells.words ≡ spec.chain_words infos.now (numbers chain.items)) }
{
    let mut cells = Cells {
        fields: Vec::new(alloc),
        words: 0,
    };
    while let Some(id) = chain.pop() {
        let class = id.0 as usize;
        cells.add(&infos[class].def, firsts[class])?;
    }
    Ok(cells)
}

/// The cells of each class's objects, and the fields with their slots.
#[derive(Drop)]
struct Layout {
    slots: Vec<Seq<FieldId>>,
    fields: Vec<FieldInfo>,
}

/// The layout of all classes. `firsts` are the numbers of their first fields.
fn lay_out(alloc: Global, infos: &[ClassInfo], firsts: &[u32]) -> Result<Layout, AllocError>
    requires range { AreInRange infos.now }
    requires few { length infos.now < 2 ^ 32 }
    requires few_fields { sum_by (λ c. length c.def.fields) infos.now < 2 ^ 31 }
    requires acyclic { spec.IsAcyclic infos.now }
    requires firsts { firsts.now ≡ map (spec.first_field infos.now) (range_with_len 0 (length infos.now)) }
    ensures slots { IfOk result (λ layout. layout.slots.items ≡ spec.slots_below infos.now (length infos.now)) }
    ensures fields { IfOk result (λ layout. layout.fields.items ≡ spec.infos_below infos.now (length infos.now)) }
{
    let mut layout = Layout {
        slots: Vec::new(alloc),
        fields: Vec::new(alloc),
    };
    for (class, info) in infos.iter().enumerate() {
        let chain = superclasses(alloc, infos, class)?;
        let mut cells = inherited(alloc, infos, firsts, chain)?;
        add_fields(
            &mut layout.fields,
            &info.def,
            ClassId(class as u32),
            cells.words,
        )?;
        cells.add(&info.def, firsts[class])?;
        layout.slots.push(Seq::of(cells.fields))?;
    }
    Ok(layout)
}

/// The class with these cells.
fn with_slots(info: ClassInfo, slots: Seq<FieldId>) -> ClassInfo
    ensures { result ≡ spec.info_with (info, slots) }
{
    let ClassInfo {
        def,
        parent,
        interfaces,
        slots: _,
        table,
        prior,
    } = info;
    ClassInfo {
        def,
        parent,
        interfaces,
        slots,
        table,
        prior,
    }
}

/// Each class with its cells.
fn joined(
    alloc: Global,
    infos: Vec<ClassInfo>,
    slots: Vec<Seq<FieldId>>,
) -> Result<Vec<ClassInfo>, AllocError>
    ensures { IfOk result (λ done. done.items ≡ map spec.info_with (zip infos.items slots.items)) }
{
    infos
        .into_iter()
        .zip(slots)
        .map(|(info, slots)| with_slots(info, slots))
        .collect(alloc)
}

/// The classes with the cells of their objects, and all fields by number with their slots.
pub fn add_slots(
    alloc: Global,
    infos: Vec<ClassInfo>,
) -> Result<(Vec<ClassInfo>, Vec<FieldInfo>), AllocError>
    requires range { AreInRange infos.items }
    requires few { length infos.items < 2 ^ 32 }
    requires few_fields { sum_by (λ c. length c.def.fields) infos.items < 2 ^ 31 }
    requires acyclic { (image : Image) → image.classes ≡ infos.items → first_fault_by (on_cycle image) (defs infos.items) ≡ None }
    ensures classes { (cs : List ClassDef) (boot : ℕ) → infos.items ≡ (numbered cs boot).classes
        → IfOk result (λ done. done.0.items ≡ (slotted (numbered cs boot)).classes) }
    ensures fields { (cs : List ClassDef) (boot : ℕ) → infos.items ≡ (numbered cs boot).classes
        → IfOk result (λ done. done.1.items ≡ (slotted (numbered cs boot)).fields) }
{
    let firsts = first_fields(alloc, &infos)?;
    let layout = lay_out(alloc, &infos, &firsts)?;
    let classes = joined(alloc, infos, layout.slots)?;
    Ok((classes, layout.fields))
}
