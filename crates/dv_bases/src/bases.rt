// Bases of register types by number.
ghost use Rattle.std.specs.Prelude.{◌≡◌, ◌<◌, ◌^◌, ◌+◌, IfOk, IfSome, OnOk, None, [], bytes_eq, length, slice_index_or};
ghost use Rattle.dv_defs.specs.Pools.{class_named, name_at};
ghost use Rattle.dv_bases.specs.Bases.{AreNames, IsNumbered, IsWider, IsWord, base_count, base_of, class_count, name_of, type_of, word_type};

use crate::copies::Copies;
use crate::words::{Part, Reference, part_of, word_of};
use dv_defs::{Base, Image, Text, Ty};
use dv_image::class_of;
use dv_typing::RegType;
use std::alloc::{AllocError, Global};
use std::marker::Model;

/// How many bases a word has room for.
const MOST: usize = 0x20_0000;

/// The bases of register types: the primitive types, the classes of an image, and names that it lacks.
#[derive(Drop)]
pub struct Bases<'a> {
    image: &'a Image,
    copies: Copies<'a>,
    more: Vec<Text>,
}

impl<'a> Model for Bases<'a> {
    ghost use Rattle.std.specs.Prelude.{◌≡◌};
    ghost use Rattle.dv_bases.specs.Bases.{Names, AreNames};

    ghost Value = { Names };

    ghost view = { λ b. record { image = b.image.now; more = b.more.items } };

    ghost invariant = { λ b. AreNames (record { image = b.image.now; more = b.more.items }) × (b.copies ≡ b.image.now) };
}

impl<'a> Bases<'a> {
    /// The bases of an image.
    pub fn new(alloc: Global, image: &'a Image) -> Result<Bases<'a>, AllocError>
        ensures { IfOk result (λ bases. bases ≡ record { image = image.now; more = [] }) }
    {
        if count_of(image) >= MOST - 6 {
            return Err(AllocError);
        }
        Ok(Bases {
            image,
            copies: Copies::none(alloc, image),
            more: Vec::new(alloc),
        })
    }

    /// The number of a base, which is added where it has none.
    pub fn number(&mut self, base: &Base) -> Result<u32, AllocError>
        ensures wider { OnOk result (IsWider self.old self.new) }
        ensures number { IfOk result (λ k. base_of self.new k ≡ base.now) }
        ensures within { IfOk result (λ k. k < base_count self.new) }
    {
        match base {
            Base::Z => Ok(0),
            Base::B => Ok(1),
            Base::C => Ok(2),
            Base::S => Ok(3),
            Base::I => Ok(4),
            Base::J => Ok(5),
            Base::Class(name) => self.number_name(name),
        }
    }

    /// The number of a name among the classes and the names behind them.
    fn number_name(&mut self, name: &Text) -> Result<u32, AllocError>
        ensures wider { OnOk result (IsWider self.old self.new) }
        ensures number { IfOk result (λ k. base_of self.new k ≡ Base.Class name.now) }
        ensures within { IfOk result (λ k. k < base_count self.new) }
    {
        match class_named(self.image, name) {
            Some(class) => {
                self.copies.add(class, name)?;
                Ok((6 + class) as u32)
            }
            None => self.number_more(name),
        }
    }

    /// The number of a name that the image lacks.
    fn number_more(&mut self, name: &Text) -> Result<u32, AllocError>
        requires { class_named self.old.image name.now ≡ None }
        ensures wider { OnOk result (IsWider self.old self.new) }
        ensures number { IfOk result (λ k. base_of self.new k ≡ Base.Class name.now) }
        ensures within { IfOk result (λ k. k < base_count self.new) }
    {
        let place = self.place_of(name)?;
        Ok((6 + count_of(self.image) + place) as u32)
    }

    /// The place of a name that the image lacks among the others.
    fn place_of(&mut self, name: &Text) -> Result<usize, AllocError>
        requires { class_named self.old.image name.now ≡ None }
        ensures wider { OnOk result (IsWider self.old self.new) }
        ensures place { IfOk result (λ k. slice_index_or self.new.more k [] ≡ name.now) }
        ensures within { IfOk result (λ k. k < length self.new.more) }
    {
        match place_in(&self.more, name) {
            Some(place) => Ok(place),
            None => self.add(name),
        }
    }

    /// Adds a name that the image lacks, and gives its place. A method names far fewer than a word has room for: its text would be longer
    /// than any that is read.
    fn add(&mut self, name: &Text) -> Result<usize, AllocError>
        requires { class_named self.old.image name.now ≡ None }
        ensures wider { OnOk result (IsWider self.old self.new) }
        ensures place { IfOk result (λ k. slice_index_or self.new.more k [] ≡ name.now) }
        ensures within { IfOk result (λ k. k < length self.new.more) }
    {
        let place = self.more.len();
        if count_of(self.image) >= MOST - 7 || place >= MOST - 7 - count_of(self.image) {
            return Err(AllocError);
        }
        self.more.push(name.clone()?)?;
        Ok(place)
    }

    /// A class or an array by the number of its base, which is added where it has none.
    pub fn reference(&mut self, ty: &Ty) -> Result<Reference, AllocError>
        ensures wider { OnOk result (IsWider self.old self.new) }
        ensures told { IfOk result (λ r. type_of self.new r ≡ ty.now) }
        ensures numbered { IfOk result (IsNumbered self.new) }
    {
        Ok(Reference {
            dims: ty.dims,
            base: self.number(&ty.base)?,
        })
    }

    /// The number of classes: they have the numbers behind the primitive types, and the other names those behind the classes.
    pub fn class_count(&self) -> usize
        ensures count { result ≡ class_count self.now }
        ensures names { AreNames self.now }
    {
        let _more = &self.more;
        count_of(self.image)
    }

    /// Whether two of the names that the image lacks are one. It takes no memory.
    pub fn is_same_more(&self, place: usize, other: usize) -> bool
        requires place { place < length self.now.more }
        requires other { other < length self.now.more }
        ensures { result ≡ bytes_eq (slice_index_or self.now.more place []) (slice_index_or self.now.more other []) }
    {
        self.more[place].bytes() == self.more[other].bytes()
    }

    /// The word of a class or an array.
    pub fn class_word(&mut self, ty: &Ty) -> Result<u32, AllocError>
        ensures wider { OnOk result (IsWider self.old self.new) }
        ensures told { IfOk result (λ w. word_type self.new w ≡ RegType.Class ty.now) }
        ensures word { IfOk result (IsWord self.new) }
    {
        let class = self.reference(ty)?;
        Ok(self.word_of_class(class))
    }

    /// The word of a class or an array by its number.
    pub fn word_of_class(&self, class: Reference) -> u32
        requires { IsNumbered self.now class }
        ensures told { word_type self.now result ≡ RegType.Class (type_of self.now class) }
        ensures word { IsWord self.now result }
    {
        // (by what is kept of the names a word has room for each number)
        let _more = &self.more;
        word_of(Part::Class(class))
    }

    /// The base of a number.
    fn base(&self, number: u32) -> Result<Base, AllocError>
        requires { number < base_count self.now }
        ensures { IfOk result (λ b. b ≡ base_of self.now number) }
    {
        match number {
            0 => Ok(Base::Z),
            1 => Ok(Base::B),
            2 => Ok(Base::C),
            3 => Ok(Base::S),
            4 => Ok(Base::I),
            5 => Ok(Base::J),
            _ => Ok(Base::Class(self.name(number as usize - 6)?)),
        }
    }

    /// The name of a number.
    fn name(&self, number: usize) -> Result<Text, AllocError>
        requires { 6 + number < base_count self.now }
        ensures { IfOk result (λ name. name ≡ name_of self.now number) }
    {
        let classes = count_of(self.image);
        if number < classes {
            self.copies.name(number)
        } else {
            self.more[number - classes].clone()
        }
    }

    /// The class or array that a reference is.
    pub fn ty(&self, class: Reference) -> Result<Ty, AllocError>
        requires { IsNumbered self.now class }
        ensures { IfOk result (λ t. t ≡ type_of self.now class) }
    {
        Ok(Ty {
            dims: class.dims,
            base: self.base(class.base)?,
        })
    }

    /// The type that a word says.
    pub fn register_type(&self, word: u32) -> Result<RegType, AllocError>
        requires { IsWord self.now word }
        ensures { IfOk result (λ t. t ≡ word_type self.now word) }
    {
        match part_of(word) {
            Part::Conflict => Ok(RegType::Conflict),
            Part::Zero => Ok(RegType::Zero),
            Part::Int => Ok(RegType::Int),
            Part::LongLo => Ok(RegType::LongLo),
            Part::LongHi => Ok(RegType::LongHi),
            Part::UninitThis => Ok(RegType::UninitThis),
            Part::Uninit(at) => Ok(RegType::Uninit(at)),
            Part::Class(class) => Ok(RegType::Class(self.ty(class)?)),
        }
    }
}

/// The number of an image's classes.
fn count_of(image: &Image) -> usize
    ensures { result ≡ length image.now.classes }
{
    image.classes.len()
}

/// The class of a name.
#[tactic(auto, using(crate::proofs::Naming::is_named))]
fn class_named(image: &Image, name: &Text) -> Option<usize>
    ensures class { result ≡ class_named image.now name.now }
    ensures within { IfSome result (λ c. c < length image.now.classes) }
    ensures named { IfSome result (λ c. name_at image.now c ≡ name.now) }
{
    class_of(image, name)
}

/// The place of a name among others.
fn place_in(names: &[Text], name: &Text) -> Option<usize>
    ensures within { IfSome result (λ k. k < length names.now) }
    ensures there { IfSome result (λ k. slice_index_or names.now k [] ≡ name.now) }
{
    for place in 0..names.len() {
        if names[place].bytes() == name.bytes() {
            return Some(place);
        }
    }
    None
}
