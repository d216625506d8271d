// A method's own copies of the names of classes.
ghost use Rattle.std.specs.Prelude.{◌≡◌, ◌<◌, IfOk, OnOk, Some, length, slice_set};
ghost use Rattle.dv_defs.specs.Images as images;
ghost use Rattle.dv_defs.specs.Pools.{name_at};
ghost use Rattle.dv_bases.specs.Copies.{AreCopies};

use dv_defs::{Image, Text};
use std::alloc::{AllocError, Global};
use std::marker::Model;

/// A longer name isn't copied: for each method that speaks of it, it would take its length.
const LONGEST: usize = 256;

/// Copies of names of classes of an image. Types that are made of a copy count how often they share it beside no other method's, so that methods
/// that are verified at the same time don't wait for one counter.
#[derive(Drop)]
pub struct Copies<'a> {
    image: &'a Image,
    names: Vec<Option<Text>>,
}

impl<'a> Model for Copies<'a> {
    ghost use Rattle.dv_defs.specs.Images.{Image};
    ghost use Rattle.dv_bases.specs.Copies.{AreCopies};

    ghost Value = { Image };

    ghost view = { λ c. c.image.now };

    ghost invariant = { λ c. AreCopies c.image.now c.names.items };
}

impl<'a> Copies<'a> {
    /// No name is copied.
    pub fn none(alloc: Global, image: &'a Image) -> Copies<'a>
        ensures { result ≡ image.now }
    {
        Copies {
            image,
            names: Vec::new(alloc),
        }
    }

    /// Copies the name of a class, unless it is copied, or long.
    pub fn add(&mut self, class: usize, name: &Text) -> Result<(), AllocError>
        requires { name_at self.old class ≡ name.now }
        ensures { self.new ≡ self.old }
    {
        if name.bytes().len() > LONGEST || is_copied(&self.names, class) {
            return Ok(());
        }
        let copy = copy_of(*self.names.allocator(), name)?;
        reach(&mut self.names, class)?;
        put(&mut self.names, class, copy);
        Ok(())
    }

    /// The name of a class.
    pub fn name(&self, class: usize) -> Result<Text, AllocError>
        requires { class < length self.now.classes }
        ensures { IfOk result (λ name. name ≡ name_at self.now class) }
    {
        match self.names.get(class) {
            Some(Some(name)) => name.clone(),
            _ => class_name(self.image, class),
        }
    }
}

/// The name of a class of the image.
fn class_name(image: &Image, class: usize) -> Result<Text, AllocError>
    requires { class < length image.now.classes }
    ensures { IfOk result (λ name. name ≡ name_at image.now class) }
{
    let classes = image.classes.items();
    classes[class].def.name.clone()
}

/// Whether the name of a class is copied.
fn is_copied(names: &[Option<Text>], class: usize) -> bool {
    matches!(names.get(class), Some(Some(_)))
}

/// A text with bytes of its own.
fn copy_of(alloc: Global, name: &Text) -> Result<Text, AllocError>
    ensures { IfOk result (λ copy. copy ≡ name.now) }
{
    Text::of(Vec::from_slice(alloc, name.bytes())?)
}

/// Makes room for the copy of a class's name.
fn reach(names: &mut Vec<Option<Text>>, class: usize) -> Result<(), AllocError>
    ensures copies { (image : images.Image) → AreCopies image names.old.items → AreCopies image names.new.items }
{
    while names.len() <= class {
        names.push(None)?;
    }
    Ok(())
}

/// Keeps the copy of a class's name, where there is room for it.
fn put(names: &mut [Option<Text>], class: usize, copy: Text)
    ensures { names.new ≡ slice_set names.old class (Some copy) }
{
    if class < names.len() {
        names[class] = Some(copy);
    }
}
