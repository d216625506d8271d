// The classes that are linked, and their hierarchy.
ghost use Rattle.std.specs.Prelude.{◌≡◌, ◌↔◌, IsTrue, IsSome, IfSome};
ghost use Rattle.dv_defs.specs.Linked.{AreNamed};

use dv_defs::{ClassDef, ClassId, ClassInfo, FieldInfo, Pool, Seq, Text};
use std::marker::Model;

/// The classes that are linked, of which the first `boot` are the boot classes. Each has a name.
#[derive(Drop)]
pub struct Classes {
    pub list: Seq<ClassDef>,
    pub boot: u32,
}

impl Model for Classes {
    ghost use Rattle.dv_hier.specs.Hierarchies.{ClassesValue};
    ghost use Rattle.dv_defs.specs.Linked.{AreNamed};

    ghost Value = { ClassesValue };

    ghost view = { λ c. record { list = c.list; boot = c.boot } };

    ghost invariant = { λ c. AreNamed c.list };

    ghost inverse = { λ c. record { list = c.list; boot = c.boot } };
}

/// Whether each class has a name.
fn are_named(list: &[ClassDef]) -> bool
    ensures { IsTrue result ↔ AreNamed list.now }
{
    for class in list {
        if class.name.bytes().is_empty() {
            return false;
        }
    }
    true
}

impl Classes {
    /// These classes, or none where one of them has no name.
    pub fn new(list: Vec<ClassDef>, boot: u32) -> Option<Classes>
        ensures named { IsSome result ↔ AreNamed list.items }
        ensures classes { IfSome result (λ classes. classes ≡ record { list = list.items; boot = boot }) }
    {
        if !are_named(list.as_slice()) {
            return None;
        }
        Some(Classes {
            list: Seq::of(list),
            boot,
        })
    }
}

/// Classes that know their superclass and their interfaces by number, and the cells of their objects.
/// No superclass or interface depends on itself, no class or field is told twice, and the boot classes are those that each program finds.
/// A contract doesn't see the names, the interfaces and the ancestors beside the classes.
#[derive(Drop)]
pub struct Hierarchy {
    pub classes: Seq<ClassInfo>,
    pub fields: Seq<FieldInfo>,
    pub boot: u32,
    /// The classes' descriptors in their order.
    pub names: Pool<Text>,
    /// By class, the interfaces that it names and those above them, depth first, each once.
    pub interfaces: Seq<Seq<ClassId>>,
    /// By class, whether each class is above it, by superclasses and superinterfaces.
    pub ancestors: Seq<Seq<bool>>,
}

impl Model for Hierarchy {
    ghost use Rattle.std.specs.Prelude.{◌≡◌};
    ghost use Rattle.dv_hier.specs.Hierarchies.{HierarchyValue, IsHierarchy, AreAbove};
    ghost use Rattle.dv_defs.specs.Numbering.{names_of};

    ghost Value = { HierarchyValue };

    ghost view = { λ h. record { classes = h.classes; fields = h.fields; boot = h.boot } };

    ghost invariant = { λ h. IsHierarchy (record { classes = h.classes; fields = h.fields; boot = h.boot })
        × (h.names ≡ names_of h.classes) × AreAbove h.interfaces h.ancestors h.classes };
}
