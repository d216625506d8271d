// The superclasses of an image's classes, as a table.
ghost use Rattle.std.specs.Prelude.{◌≡◌, ◌<◌, IfOk, IfSome, length, replicate, false};
ghost use Rattle.dv_defs.specs.Common.{first_common};
ghost use Rattle.dv_defs.specs.Names.{object_name};
ghost use Rattle.dv_defs.specs.Order.{extends as is_above};
ghost use Rattle.dv_defs.specs.Pools.{class_type, name_at, supers};
ghost use Rattle.law_types.specs.Hierarchy.{IsHierarchy};
ghost use Rattle.dv_types.specs.Classes.{AreRows, IsObject, IsRow, IsTable};

use dv_defs::{Image, Seq};
use dv_image::{OBJECT, boot_class, parent_of};
use std::alloc::{AllocError, Global};
use std::marker::Model;

/// Which class of an image extends which: for each class a flag for each other. The classes are a hierarchy below Object.
#[derive(Drop)]
pub struct ClassTable<'a> {
    image: &'a Image,
    rows: Seq<Seq<bool>>,
    object: usize,
}

impl<'a> Model for ClassTable<'a> {
    ghost use Rattle.dv_defs.specs.Images as images;
    ghost use Rattle.dv_types.specs.Classes.{IsTable};

    ghost Value = { images.Image };

    ghost view = { λ t. t.image.now };

    ghost invariant = { λ t. IsTable t.image.now t.rows t.object };
}

impl<'a> ClassTable<'a> {
    /// The table of an image's classes.
    pub fn new(alloc: Global, image: &'a Image) -> Result<ClassTable<'a>, AllocError>
        ensures { IfOk result (λ t. t ≡ image.now) }
    {
        let object = object_of(image);
        let _classes = &image.classes;
        let rows = rows_of(alloc, image)?;
        Ok(ClassTable {
            image,
            rows: Seq::of(rows),
            object,
        })
    }

    /// Whether a class is the other or under it by superclasses.
    pub fn extends(&self, class: usize, above: usize) -> bool
        requires class { class < length self.now.classes }
        requires above { above < length self.now.classes }
        ensures { result ≡ is_above self.now class above }
    {
        let rows = self.rows.items();
        let row = rows[class].items();
        row[above]
    }

    /// The nearest class that is above both, Object where there is none.
    pub fn common(&self, class: usize, other: usize) -> usize
        requires class { class < length self.now.classes }
        requires other { other < length self.now.classes }
        ensures common { first_common self.now (supers self.now class) (supers self.now other) ≡ class_type self.now result }
        ensures within { result < length self.now.classes }
    {
        let rows = self.rows.items();
        nearest(self.image, rows[other].items(), self.object, class, other)
    }

    /// The class that is above all.
    pub fn object(&self) -> usize
        ensures named { name_at self.now result ≡ object_name }
        ensures hierarchy { IsHierarchy self.now }
        ensures within { result < length self.now.classes }
    {
        self.object
    }
}

/// The number of an image's classes.
fn count_of(image: &Image) -> usize
    ensures { result ≡ length image.now.classes }
{
    image.classes.len()
}

/// The place of Object.
fn object_of(image: &Image) -> usize
    ensures { IsObject image.now result }
{
    let _classes = &image.classes;
    boot_class(image, OBJECT).unwrap()
}

/// A row for each class.
fn rows_of(alloc: Global, image: &Image) -> Result<Vec<Seq<bool>>, AllocError>
    requires { IsHierarchy image.now }
    ensures { IfOk result (λ rows. AreRows image.now rows.items) }
{
    let count = count_of(image);
    let mut rows = Vec::with_capacity(alloc, count)?;
    for class in 0..count {
        rows.push(row_of(alloc, image, class)?)?;
    }
    Ok(rows)
}

/// The row of a class.
fn row_of(alloc: Global, image: &Image, class: usize) -> Result<Seq<bool>, AllocError>
    requires hierarchy { IsHierarchy image.now }
    requires class { class < length image.now.classes }
    ensures { IfOk result (IsRow image.now class) }
{
    let count = count_of(image);
    let mut row = no_marks(alloc, count)?;
    mark(image, class, &mut row);
    Ok(Seq::of(row))
}

/// So many flags that aren't set.
fn no_marks(alloc: Global, count: usize) -> Result<Vec<bool>, AllocError>
    ensures { IfOk result (λ row. row.items ≡ replicate count false) }
{
    let mut row = Vec::with_capacity(alloc, count)?;
    for _ in 0..count {
        row.push(false)?;
    }
    Ok(row)
}

/// Sets the flags of a class and of its superclasses.
fn mark(image: &Image, class: usize, row: &mut [bool])
    requires hierarchy { IsHierarchy image.now }
    requires class { class < length image.now.classes }
    requires clear { row.old ≡ replicate (length image.now.classes) false }
    ensures { IsRow image.now class row.new }
{
    let mut at = Some(class);
    let mut left = count_of(image);
    while left > 0 {
        let Some(place) = at else { return };
        row[place] = true;
        at = parent_of(image, place);
        left -= 1;
    }
}

/// The first class of a walk up from one that the other's row tells to be above it too.
fn nearest(image: &Image, above: &[bool], object: usize, class: usize, other: usize) -> usize
    requires hierarchy { IsHierarchy image.now }
    requires above { IsRow image.now other above.now }
    requires object { IsObject image.now object }
    requires class { class < length image.now.classes }
    ensures common { first_common image.now (supers image.now class) (supers image.now other) ≡ class_type image.now result }
    ensures within { result < length image.now.classes }
{
    let mut place = class;
    let mut left = count_of(image);
    while left > 0 {
        if above[place] {
            return place;
        }
        let Some(parent) = parent_of(image, place) else {
            return object;
        };
        place = parent;
        left -= 1;
    }
    object
}
