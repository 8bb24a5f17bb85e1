//! A program's own types, described by builders.
ghost use Rattle.example_own_types.specs.Described.{point_term, shape_term, tree_term};
ghost use Rattle.example_own_types.specs.Described.{point_description, shape_description};
ghost use Rattle.example_own_types.specs.Described.{tree_description};

use scale_info::build::{Fields, Variants};
use scale_info::form::MetaForm;
use scale_info::meta_type::{HasIdentity, Identified, InfoError};
use scale_info::{Items, Path, Type, TypeId, TypeInfo};
use std::alloc::{AllocError, Global};

/// A point.
pub struct Point {
    pub x: u32,
    pub y: u32,
}

impl Identified for Point {
    ghost own = { point_term };

    fn type_id(alloc: Global) -> Result<TypeId, AllocError> {
        Ok(TypeId::new("tutorial::Point", Vec::new(alloc), Vec::new(alloc)))
    }
}

impl HasIdentity for Point {
    type Identity = Point;
}

impl TypeInfo for Point {
    ghost description = { point_description };

    fn type_info(alloc: Global) -> Result<Type, InfoError> {
        let fields = Fields::named::<MetaForm>(alloc)
            .field(alloc, |f| f.name("x").type_name("u32").ty::<u32>(alloc))?
            .field(alloc, |f| f.name("y").type_name("u32").ty::<u32>(alloc))?;
        let path = Path::from(Items::from(vec![in alloc; "tutorial", "Point"]?));
        Ok(Type::builder(alloc).path(path).composite(fields))
    }
}

/// A shape.
pub enum Shape {
    Empty,
    Circle { center: Point, radius: u32 },
}

impl Identified for Shape {
    ghost own = { shape_term };

    fn type_id(alloc: Global) -> Result<TypeId, AllocError> {
        Ok(TypeId::new("tutorial::Shape", Vec::new(alloc), Vec::new(alloc)))
    }
}

impl HasIdentity for Shape {
    type Identity = Shape;
}

impl TypeInfo for Shape {
    ghost description = { shape_description };

    fn type_info(alloc: Global) -> Result<Type, InfoError> {
        let variants = Variants::new(alloc)
            .variant_unit(alloc, "Empty", 0)?
            .variant(alloc, "Circle", |v| {
                let fields = Fields::named::<MetaForm>(alloc)
                    .field(
                        alloc,
                        |f| f.name("center").type_name("Point").ty::<Point>(alloc),
                    )?
                    .field(
                        alloc,
                        |f| f.name("radius").type_name("u32").ty::<u32>(alloc),
                    )?;
                Ok(v.index(1).fields(fields))
            })?;
        let path = Path::from(Items::from(vec![in alloc; "tutorial", "Shape"]?));
        Ok(Type::builder(alloc).path(path).variant(variants))
    }
}

/// A shape with branches, each of which is such a tree.
pub struct Tree {
    pub shape: Shape,
    pub branches: Vec<Tree>,
}

impl Identified for Tree {
    ghost own = { tree_term };

    fn type_id(alloc: Global) -> Result<TypeId, AllocError> {
        Ok(TypeId::new("tutorial::Tree", Vec::new(alloc), Vec::new(alloc)))
    }
}

impl HasIdentity for Tree {
    type Identity = Tree;
}

impl TypeInfo for Tree {
    ghost description = { tree_description };

    fn type_info(alloc: Global) -> Result<Type, InfoError> {
        let fields = Fields::named::<MetaForm>(alloc)
            .field(
                alloc,
                |f| f.name("shape").type_name("Shape").ty::<Shape>(alloc),
            )?
            .field(
                alloc,
                |f| f
                    .name("branches")
                    .type_name("Vec<Tree>")
                    .ty::<Vec<Tree>>(alloc),
            )?;
        let path = Path::from(Items::from(vec![in alloc; "tutorial", "Tree"]?));
        Ok(Type::builder(alloc).path(path).composite(fields))
    }
}
