// Members of an image with their declarations.
ghost use Rattle.std.specs.Prelude.{◌≡◌, option_map};
ghost use Rattle.dv_defs.specs.Pools.{field_at as field_numbered, method_at as method_numbered};
ghost use Rattle.dv_defs.specs.Op.{code_at};
ghost use Rattle.dv_ops.specs.Meaning.{code_of, field_of, method_of};

use dv_defs::{Body, FieldDef, FieldId, FieldInfo, Image, MethodDef, MethodId, MethodInfo};

/// A method with its declaration.
#[derive(Clone, Copy)]
pub struct Method<'a> {
    pub id: MethodId,
    pub info: &'a MethodInfo,
    pub def: &'a MethodDef,
}

/// A field with its declaration.
#[derive(Clone, Copy)]
pub struct Field<'a> {
    pub id: FieldId,
    pub info: FieldInfo,
    pub def: &'a FieldDef,
}

/// A method with its body.
#[derive(Clone, Copy)]
pub struct Coded<'a> {
    pub method: Method<'a>,
    pub body: &'a Body,
}

/// The method of a number.
#[tactic(auto, unfolding(dv_defs::specs::Pools::method_at))]
pub fn method_at(image: &Image, id: MethodId) -> Option<Method<'_>>
    ensures { option_map method_of result ≡ method_numbered image.now id.0 }
{
    let info = image.methods.items().get(id.0 as usize)?;
    let class = image.classes.items().get(info.class.0 as usize)?;
    let def = class.def.methods.items().get(info.place as usize)?;
    Some(Method { id, info, def })
}

/// The field of a number.
#[tactic(auto, unfolding(dv_defs::specs::Pools::field_at))]
pub fn field_at(image: &Image, id: FieldId) -> Option<Field<'_>>
    ensures { option_map field_of result ≡ field_numbered image.now id.0 }
{
    let info = image.fields.items().get(id.0 as usize)?;
    let class = image.classes.items().get(info.class.0 as usize)?;
    let def = class.def.fields.items().get(info.place as usize)?;
    Some(Field {
        id,
        info: *info,
        def,
    })
}

/// The method of a number with its body; none where it has no body.
#[tactic(auto, unfolding(dv_defs::specs::Op::code_at))]
pub fn coded_at(image: &Image, id: MethodId) -> Option<Coded<'_>>
    ensures { option_map code_of result ≡ code_at image.now id.0 }
{
    let method = method_at(image, id)?;
    match &method.def.body {
        Some(body) => Some(Coded { method, body }),
        None => None,
    }
}
