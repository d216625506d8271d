// Classes with their tables of methods, and what is initialised before them.
ghost use Rattle.std.specs.Prelude.{◌≡◌, IfOk};
ghost use Rattle.dv_defs.specs.LinkFaults.{Checks};
ghost use Rattle.dv_defs.specs.Linked.{defs, method_phase};
ghost use Rattle.dv_vtable.specs.Tables.{tabled_of};

use crate::key_numbers::KeyNumbers;
use crate::methods::check_methods;
use crate::numbering::number_methods;
use crate::priors::priors_of_all;
use crate::sources::Sources;
use crate::tabling::{all_tables, joined};
use dv_defs::{LinkError, MethodInfo, Seq};
use dv_hier::Hierarchy;
use std::alloc::Global;
use std::marker::Model;

/// Classes that know what calls on objects select and what is initialised before them, and all methods by number. No class declares a
/// method twice, with a wrong body, or over a final one. A contract doesn't see the numbers of names and prototypes beside the classes and methods.
#[derive(Drop)]
pub struct Tabled {
    pub h: Hierarchy,
    pub methods: Seq<MethodInfo>,
    /// By method, the number of its name and prototype: that of the first method which has them.
    pub keys: Seq<u32>,
    /// By class, the number of the name and prototype for which each place of its table stands.
    pub places: Seq<Seq<u32>>,
}

impl Model for Tabled {
    ghost use Rattle.dv_vtable.specs.Tables.{TabledValue, IsTabled, AreKeyed, image_of};

    ghost Value = { TabledValue };

    ghost view = { λ t. record { h = t.h; methods = t.methods } };

    ghost invariant = { λ t. IsTabled (record { h = t.h; methods = t.methods }) × AreKeyed t.keys t.places (image_of (record { h = t.h; methods = t.methods })) };
}

/// The classes of a hierarchy with their tables and what is initialised before them. The fault is told of the first class in which it is.
pub fn tables(alloc: Global, h: Hierarchy) -> Result<Tabled, LinkError>
    ensures fault { Checks result (method_phase (defs h.classes) h.boot) }
    ensures tables { IfOk result (λ t. t ≡ tabled_of (defs h.classes) h.boot) }
{
    let Hierarchy {
        classes,
        fields,
        boot,
        names,
        interfaces,
        ancestors,
    } = h;
    let infos = classes.items();
    let keys = KeyNumbers::new(alloc, infos)?;
    check_methods(alloc, infos, &keys, boot)?;
    let methods = number_methods(alloc, infos)?;
    let sources = Sources {
        infos,
        methods: methods.as_slice(),
        keys: &keys,
        interfaces: interfaces.items(),
    };
    let (tables, places) = all_tables(alloc, &sources)?;
    let priors = priors_of_all(alloc, infos)?;
    let classes = joined(alloc, classes.into_vec(), tables, priors)?;
    Ok(Tabled {
        h: Hierarchy {
            classes: Seq::of(classes),
            fields,
            boot,
            names,
            interfaces,
            ancestors,
        },
        methods: Seq::of(methods),
        keys: Seq::of(keys.numbers),
        places: Seq::of(places),
    })
}
