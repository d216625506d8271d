// The tables of all classes.
ghost use Rattle.std.specs.Prelude.{◌≡◌, ◌<◌, ◌^◌, length, map, zip, IfOk};
ghost use Rattle.std.specs.List.{range_with_len};
ghost use Rattle.dv_defs.specs.Images.{Image};
ghost use Rattle.dv_defs.specs.Linked.{key_of, keyed_at, table_at};
ghost use Rattle.dv_vtable.specs.Chains as spec;
ghost use Rattle.dv_vtable.specs.Sources.{AreSources, IsOf};

use crate::rows::Room;
use crate::sources::Sources;
use dv_defs::{ClassId, ClassInfo, Select, Seq};
use std::alloc::{AllocError, Global};

/// The table of each class, and the numbers of the keys for which its places stand.
pub fn all_tables(
    alloc: Global,
    sources: &Sources<'_>,
) -> Result<(Vec<Seq<Select>>, Vec<Seq<u32>>), AllocError>
    requires sources { AreSources sources.now }
    requires few { length sources.now.infos.now < 2 ^ 32 }
    ensures tables { (image : Image) → IsOf sources.now image
        → IfOk result (λ done. done.0.items ≡ map (table_at image) (range_with_len 0 (length sources.now.infos.now))) }
    ensures places { (image : Image) → IsOf sources.now image
        → IfOk result (λ done. done.1.items ≡ map (λ c. map (key_of image) (keyed_at image c)) (range_with_len 0 (length sources.now.infos.now))) }
{
    let mut room = Room::new(alloc, sources)?;
    let mut tables = Vec::new(alloc);
    let mut places = Vec::new(alloc);
    for class in 0..sources.infos.len() {
        let row = room.row_of(alloc, sources, ClassId(class as u32))?;
        tables.push(Seq::of(row.selects))?;
        places.push(Seq::of(row.numbers))?;
    }
    Ok((tables, places))
}

/// The class with this table and these classes that are initialised before it.
fn with_table(info: ClassInfo, table: Seq<Select>, prior: Seq<ClassId>) -> ClassInfo
    ensures { result ≡ spec.info_with ((info, table), prior) }
{
    let ClassInfo {
        def,
        parent,
        interfaces,
        slots,
        table: _,
        prior: _,
    } = info;
    ClassInfo {
        def,
        parent,
        interfaces,
        slots,
        table,
        prior,
    }
}

/// Each class with its table and the classes that are initialised before it.
pub fn joined(
    alloc: Global,
    infos: Vec<ClassInfo>,
    tables: Vec<Seq<Select>>,
    priors: Vec<Seq<ClassId>>,
) -> Result<Vec<ClassInfo>, AllocError>
    ensures { IfOk result (λ done. done.items ≡ map spec.info_with (zip (zip infos.items tables.items) priors.items)) }
{
    infos
        .into_iter()
        .zip(tables)
        .zip(priors)
        .map(|((info, table), prior)| with_table(info, table, prior))
        .collect(alloc)
}
