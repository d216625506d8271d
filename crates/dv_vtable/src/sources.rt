// What tables of methods are made from.
ghost use Rattle.std.specs.Prelude.{◌≡◌, ◌<◌, [], length, option_map, slice_index_or, IfSome};
ghost use Rattle.dv_defs.specs.Images.{Image};
ghost use Rattle.dv_defs.specs.Pools.{method_at as method_by_number};
ghost use Rattle.dv_vtable.specs.Sources.{IsOf, itself_at, of_declared, of_method};

use crate::key_numbers::KeyNumbers;
use dv_defs::{ClassId, ClassInfo, Flag, MethodDef, MethodId, MethodInfo, Select, Seq};

/// The classes of a program with what their tables are made from.
#[derive(Clone, Copy)]
pub struct Sources<'a> {
    pub infos: &'a [ClassInfo],
    /// All methods by number.
    pub methods: &'a [MethodInfo],
    pub keys: &'a KeyNumbers,
    /// By class, the interfaces that it names and those above them.
    pub interfaces: &'a [Seq<ClassId>],
}

/// A method with the class that declares it.
#[derive(Clone, Copy)]
pub struct Declared<'a> {
    pub class: ClassId,
    pub def: &'a MethodDef,
}

impl<'a> Sources<'a> {
    /// The method of a number.
    pub fn method_at(&self, id: MethodId) -> Option<Declared<'a>>
        ensures method { (image : Image) → IsOf self.now image → option_map of_declared result ≡ option_map of_method (method_by_number image id.0) }
        ensures class { IfSome result (λ m. m.class.0 < length self.now.infos.now) }
    {
        let method = self.methods.get(id.0 as usize)?;
        let class = self.infos.get(method.class.0 as usize)?;
        let def = class.def.methods.items().get(method.place as usize)?;
        Some(Declared {
            class: method.class,
            def,
        })
    }

    /// What a call that finds this method selects.
    pub fn itself(&self, id: MethodId) -> Select
        ensures { (image : Image) → IsOf self.now image → result ≡ itself_at image id }
    {
        match self.method_at(id) {
            Some(method) if !Flag::Abstract.is_in(method.def.flags) => Select::Found(id),
            _ => Select::Abstract,
        }
    }

    /// The interfaces that a class names and those above them.
    pub fn interfaces_of(&self, class: ClassId) -> &'a [ClassId]
        ensures { result.now ≡ slice_index_or self.now.interfaces.now class.0 [] }
    {
        match self.interfaces.get(class.0 as usize) {
            Some(above) => above.items(),
            None => &[],
        }
    }
}
