// Classes of a text before their bodies are assembled.
ghost use Rattle.std.specs.Prelude.{◌≡◌, [], None, IfOk, OnOk};
ghost use Rattle.dv_classread.specs.declared.class_line.ClassLine.TheVariants as line;
ghost use Rattle.dv_classread.specs.ClassLines.{stands_next};
ghost use Rattle.dv_classread.specs.Texts.{Says, Method};
ghost use Rattle.dv_classread.specs.Classes.{classes_with, whole_classes, Adds};

use crate::class_line::{ClassHead, ClassLine, Signature, Standing, stands_next};
use dv_defs::{Body, FieldDef, Seq, Text};
use dv_draft::Draft;
use std::alloc::{AllocError, Global};

/// A body as it is read: a draft, or raw.
#[derive(Drop)]
pub enum BodyDraft {
    Drafted(Draft),
    Raw(Body),
}

/// A method as it is read. Without a line between its first and its last it has no body.
#[derive(Drop)]
pub struct MethodDraft {
    pub signature: Signature,
    pub body: Option<BodyDraft>,
}

/// A class as it is read.
#[derive(Drop)]
pub struct ClassDraft {
    pub head: ClassHead,
    pub parent: Option<Text>,
    pub interfaces: Seq<Text>,
    pub fields: Seq<FieldDef>,
    pub methods: Seq<MethodDraft>,
}

/// The classes so far, and where the next line stands. To the last class further lines may be added.
#[derive(Drop)]
pub struct ClassesSoFar {
    pub standing: Standing,
    pub classes: Vec<ClassDraft>,
    pub last: Option<ClassDraft>,
}

impl ClassDraft {
    fn new(alloc: Global, head: ClassHead) -> ClassDraft
        ensures { result ≡ record { head = head; parent = None; interfaces = []; fields = []; methods = [] } }
    {
        ClassDraft {
            head,
            parent: None,
            interfaces: Seq::of(Vec::new(alloc)),
            fields: Seq::of(Vec::new(alloc)),
            methods: Seq::of(Vec::new(alloc)),
        }
    }
}

impl ClassesSoFar {
    /// Before the first line.
    pub fn new(alloc: Global) -> ClassesSoFar
        ensures standing { result.standing ≡ Standing.Outside }
        ensures classes { result.classes.items ≡ [] }
        ensures last { result.last ≡ None }
    {
        ClassesSoFar {
            standing: Standing::Outside,
            classes: Vec::new(alloc),
            last: None,
        }
    }

    /// Closes the last class.
    fn close(&mut self) -> Result<(), AllocError>
        ensures { OnOk result (self.new.classes.items ≡ whole_classes self.old) }
    {
        if let Some(class) = self.last.take() {
            self.classes.push(class)?;
        }
        Ok(())
    }

    /// Begins a class.
    fn begin(&mut self, alloc: Global, head: ClassHead) -> Result<(), AllocError>
        ensures { OnOk result (Adds self.old (Says (line.Class head)) self.new) }
    {
        self.close()?;
        self.last = Some(ClassDraft::new(alloc, head));
        Ok(())
    }

    fn add_superclass(&mut self, name: Text)
        ensures { Adds self.old (Says (line.Super name)) self.new }
    {
        if let Some(class) = &mut self.last {
            if class.parent.is_none() {
                class.parent = Some(name);
            }
        }
    }

    fn add_interface(&mut self, name: Text) -> Result<(), AllocError>
        ensures { OnOk result (Adds self.old (Says (line.Implements name)) self.new) }
    {
        match &mut self.last {
            Some(class) => class.interfaces.push(name),
            None => Ok(()),
        }
    }

    fn add_field(&mut self, field: FieldDef) -> Result<(), AllocError>
        ensures { OnOk result (Adds self.old (Says (line.Field field)) self.new) }
    {
        match &mut self.last {
            Some(class) => class.fields.push(field),
            None => {
                drop(field);
                Ok(())
            }
        }
    }

    /// Adds a method to the last class.
    pub fn add_method(&mut self, method: MethodDraft) -> Result<(), AllocError>
        ensures adds { OnOk result (Adds self.old (Method method) self.new) }
        ensures standing { OnOk result (self.new.standing ≡ self.old.standing) }
    {
        match &mut self.last {
            Some(class) => class.methods.push(method),
            None => {
                drop(method);
                Ok(())
            }
        }
    }

    /// Adds what a line says.
    pub fn add(&mut self, alloc: Global, says: ClassLine) -> Result<(), AllocError>
        ensures adds { OnOk result (Adds self.old (Says says) self.new) }
        ensures standing { OnOk result (self.new.standing ≡ stands_next self.old.standing says) }
    {
        let standing = stands_next(self.standing, &says);
        match says {
            ClassLine::Class(head) => self.begin(alloc, head)?,
            ClassLine::Super(name) => self.add_superclass(name),
            ClassLine::Implements(name) => self.add_interface(name)?,
            ClassLine::Field(field) => self.add_field(field)?,
            ClassLine::Source => {}
            ClassLine::Method(signature) => drop(signature),
        }
        self.standing = standing;
        Ok(())
    }

    /// The classes, behind the last line.
    pub fn into_classes(mut self) -> Result<Vec<ClassDraft>, AllocError>
        ensures { IfOk result (λ v. v.items ≡ classes_with self []) }
    {
        match self.close() {
            Ok(()) => {
                let ClassesSoFar { classes, last, .. } = self;
                drop(last);
                Ok(classes)
            }
            Err(error) => {
                drop(self);
                Err(error)
            }
        }
    }
}
