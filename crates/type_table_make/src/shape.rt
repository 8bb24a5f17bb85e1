//! The shapes of tables, and their entries.
use crate::random::Random;
use crate::runtime::described;
use crate::texts::hard;
use scale_info::form::PortableForm;
use scale_info::{
    Field, Path, PortableType, Text, Type, TypeDef, TypeDefComposite, TypeDefPrimitive,
    TypeDefSequence,
};
use std::alloc::{AllocError, Global};

/// How a table is made.
#[derive(Clone, Copy)]
pub enum Shape {
    /// Like a runtime's metadata: built-in types, structs and enums with docs, and some others.
    Runtime,
    /// Each type is a sequence of the next one; the last is `u8`.
    Up,
    /// The first type is `u8`; each other is a sequence of the one before it.
    Down,
    /// The first type is `u8`; each other is a struct of two fields of it.
    Structs,
    /// Two types: `u8`, and a struct with so many fields of it.
    Wide,
    /// Structs whose docs JSON writes with escapes.
    Escapes,
}

impl Shape {
    /// The shape of this name; None where there is none.
    pub fn by_name(name: &str) -> Option<Shape> {
        match name {
            "runtime" => Some(Shape::Runtime),
            "up" => Some(Shape::Up),
            "down" => Some(Shape::Down),
            "structs" => Some(Shape::Structs),
            "wide" => Some(Shape::Wide),
            "escapes" => Some(Shape::Escapes),
            _ => None,
        }
    }
}

/// A table in the making.
#[derive(Drop)]
pub struct Making {
    /// Its shape.
    pub shape: Shape,
    /// How many types it has, and of `Wide` how many fields.
    pub count: u32,
    /// Which of all tables of the shape it is.
    pub seed: u32,
    /// How many of its last types differ from those of the table of 0.
    pub changed: u32,
}

impl Making {
    /// How many entries the table has.
    pub fn len(&self) -> u32 {
        match self.shape {
            Shape::Wide => 2,
            _ => self.count,
        }
    }

    /// The entry at this index.
    pub fn entry(&self, alloc: Global, id: u32) -> Result<PortableType, AllocError> {
        let ty = match self.shape {
            Shape::Runtime => described(alloc, self.seed, id, self.is_changed(id))?,
            Shape::Up if id.saturating_add(1) < self.count => sequence(alloc, id.saturating_add(1)),
            Shape::Down if id > 0 => sequence(alloc, id - 1),
            Shape::Structs if id > 0 => self.pair(alloc, id)?,
            Shape::Escapes if id > 0 => self.escaped(alloc, id)?,
            Shape::Wide if id > 0 => self.wide(alloc)?,
            _ => Type::from_def(alloc, TypeDefPrimitive::U8.into()),
        };
        Ok(PortableType::new(id, ty))
    }

    /// Whether the type at this index is one of the last so many.
    fn is_changed(&self, id: u32) -> bool {
        id >= self.count.saturating_sub(self.changed)
    }

    /// A struct `demo::T` with its index, of two fields.
    fn pair(&self, alloc: Global, id: u32) -> Result<Type<PortableForm>, AllocError> {
        let first = if self.is_changed(id) {
            "other"
        } else {
            "first"
        };
        let first = field(alloc, Text::from_str(alloc, first)?)?;
        let second = field(alloc, Text::from_str(alloc, "second")?)?;
        structure(alloc, id, vec![in alloc; first, second]?, Vec::new(alloc))
    }

    /// A struct of no fields with two lines of docs that are hard to write.
    fn escaped(&self, alloc: Global, id: u32) -> Result<Type<PortableForm>, AllocError> {
        let mut random = Random::new(self.seed, id);
        let (first, second) = (hard(alloc, &mut random, 40)?, hard(alloc, &mut random, 40)?);
        structure(alloc, id, Vec::new(alloc), vec![in alloc; first, second]?)
    }

    /// A struct of all fields.
    fn wide(&self, alloc: Global) -> Result<Type<PortableForm>, AllocError> {
        let mut fields = Vec::new(alloc);
        for place in 0..self.count {
            let name = format!(in alloc; "field_{place}")?;
            fields.push(field(alloc, Text::from(name))?)?;
        }
        structure(alloc, 1, fields, Vec::new(alloc))
    }
}

/// A sequence of the type with this id.
fn sequence(alloc: Global, id: u32) -> Type<PortableForm> {
    Type::from_def(alloc, TypeDefSequence::new(id.into()).into())
}

/// A field of the first type.
fn field(alloc: Global, name: Text) -> Result<Field<PortableForm>, AllocError> {
    let type_name = Text::from_str(alloc, "u8")?;
    Ok(Field::new(Some(name), 0.into(), Some(type_name), Vec::new(alloc)))
}

/// A struct `demo::T` with its index.
fn structure(
    alloc: Global,
    id: u32,
    fields: Vec<Field<PortableForm>>,
    docs: Vec<Text>,
) -> Result<Type<PortableForm>, AllocError> {
    let module = Text::from_str(alloc, "demo")?;
    let name = Text::from(format!(in alloc; "T{id}")?);
    let path = Path::from_segments_unchecked(alloc, vec![in alloc; module, name]?)?;
    let def = TypeDef::Composite(TypeDefComposite::from(fields));
    Type::new(alloc, path, Vec::new(alloc), def, docs)
}
