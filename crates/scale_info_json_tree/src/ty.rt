//! Descriptions, their parts and entries of a table as trees.
ghost use Rattle.std.specs.Prelude.{refl, ◌≡◌, List, ℕ, IfSome, IfNone, IfOk, IfErr};
ghost use Rattle.scale_info_json_trees.specs.EntryTrees.{description_rows, MeansDescription};
ghost use Rattle.scale_info_json_trees.specs.EntryTrees.{entry_rows, MeansEntry};
ghost use Rattle.scale_info_json_tree.specs.ObjectLaws.{description_law, entry_law, field_law};
ghost use Rattle.scale_info_json_tree.specs.ObjectLaws.{parameter_law, variant_law, composite_law};
ghost use Rattle.scale_info_json_tree.specs.ObjectLaws.{variant_type_law, sequence_law, array_law};
ghost use Rattle.scale_info_json_tree.specs.ObjectLaws.{compact_law, bit_sequence_law, map_law};
ghost use Rattle.scale_info_json_tree.specs.ObjectLaws.{primitive_law, type_def_law};
ghost use Rattle.serde_json.specs.Data.{Data};
ghost use Rattle.scale_info_json_trees.specs.PartTrees.{field_rows, MeansField, parameter_rows};
ghost use Rattle.scale_info_json_trees.specs.PartTrees.{MeansParameter, variant_rows, MeansVariant};
ghost use Rattle.serde_json.specs.View.{view};
ghost use Rattle.scale_info_primitives.specs.Primitives.{primitive_name};
ghost use Rattle.scale_info_json_tree.specs.JsonErrors.{IfShape};
ghost use Rattle.scale_info_json_trees.specs.Meaning.{IsMeaningless};
ghost use Rattle.scale_info_json_trees.specs.DefinitionTrees.{composite_rows, MeansComposite};
ghost use Rattle.scale_info_json_trees.specs.DefinitionTrees.{variant_type_rows, MeansVariantType};
ghost use Rattle.scale_info_json_trees.specs.DefinitionTrees.{sequence_rows, MeansSequence};
ghost use Rattle.scale_info_json_trees.specs.DefinitionTrees.{array_rows, MeansArray, compact_rows};
ghost use Rattle.scale_info_json_trees.specs.DefinitionTrees.{MeansCompact, bit_sequence_rows};
ghost use Rattle.scale_info_json_trees.specs.DefinitionTrees.{MeansBitSequence, map_rows, MeansMap};
ghost use Rattle.scale_info_json_trees.specs.DefinitionTrees.{primitive_tree, MeansPrimitive};
ghost use Rattle.scale_info_json_trees.specs.DefinitionTrees.{type_def_rows, HasOnly, MeansUnder};
ghost use Rattle.scale_info_json_trees.specs.DefinitionTrees.{MeansTypeDef};

use crate::error::JsonError;
use crate::members::{Object, ObjectWriter};
use crate::read_members::{list_or_empty, require_object, required, value_or_none};
use crate::tree::Json;
use json::Writer;
use scale_info_collections::items::Items;
use scale_info_collections::text::Text;
use scale_info_types::form::PortableForm;
use scale_info_types::ty::composite::TypeDefComposite;
use scale_info_types::ty::fields::Field;
use scale_info_types::ty::path::Path;
use scale_info_types::ty::variant::{TypeDefVariant, Variant};
use scale_info_types::ty::{
    Description, PortableType, TypeDef, TypeDefArray, TypeDefBitSequence, TypeDefCompact,
    TypeDefMap, TypeDefPrimitive, TypeDefSequence, TypeDefTuple, TypeParameter,
};
use serde_json::Value;
use std::alloc::{AllocError, Global};

impl Object for PortableType {
    ghost rows = { entry_rows };

    ghost meant = { MeansEntry };

    fn write_members<W: ObjectWriter>(&self, out: &mut W) -> Result<(), AllocError> {
        out.write_member("id", &self.id)?;
        out.write_member("type", &self.ty)
    }

    fn read_members(alloc: Global, tree: &Value) -> Result<PortableType, JsonError> {
        require_object(tree)?;
        let id = required(alloc, tree, "id")?;
        let ty = required(alloc, tree, "type")?;
        Ok(PortableType { id, ty })
    }

    ghost ordered = { λ v. refl };

    ghost law = { entry_law };
}

impl Object for Description<PortableForm> {
    ghost rows = { description_rows };

    ghost meant = { MeansDescription };

    fn write_members<W: ObjectWriter>(&self, out: &mut W) -> Result<(), AllocError> {
        out.write_member("def", &self.type_def)?;
        out.write_unless_empty("docs", &self.docs)?;
        out.write_unless_empty("params", &self.type_params)?;
        out.write_unless_empty("path", &self.path.segments)
    }

    fn read_members(alloc: Global, tree: &Value) -> Result<Description<PortableForm>, JsonError> {
        require_object(tree)?;
        let segments: Items<Text> = list_or_empty(alloc, tree, "path")?;
        let type_params = list_or_empty(alloc, tree, "params")?;
        let type_def = required(alloc, tree, "def")?;
        let docs = list_or_empty(alloc, tree, "docs")?;
        Ok(Description {
            path: Path::from(segments),
            type_params,
            type_def,
            docs,
        })
    }

    ghost ordered = { λ v. refl };

    ghost law = { description_law };
}

impl Object for TypeParameter<PortableForm> {
    ghost rows = { parameter_rows };

    ghost meant = { MeansParameter };

    fn write_members<W: ObjectWriter>(&self, out: &mut W) -> Result<(), AllocError> {
        out.write_member("name", &self.name)?;
        out.write_or_null("type", &self.ty)
    }

    fn read_members(alloc: Global, tree: &Value) -> Result<TypeParameter<PortableForm>, JsonError> {
        require_object(tree)?;
        let name = required(alloc, tree, "name")?;
        let ty = value_or_none(alloc, tree, "type")?;
        Ok(TypeParameter { name, ty })
    }

    ghost ordered = { λ v. refl };

    ghost law = { parameter_law };
}

impl Object for TypeDefComposite<PortableForm> {
    ghost rows = { composite_rows };

    ghost meant = { MeansComposite };

    fn write_members<W: ObjectWriter>(&self, out: &mut W) -> Result<(), AllocError> {
        out.write_unless_empty("fields", &self.fields)
    }

    fn read_members(
        alloc: Global,
        tree: &Value,
    ) -> Result<TypeDefComposite<PortableForm>, JsonError> {
        require_object(tree)?;
        let fields = list_or_empty(alloc, tree, "fields")?;
        Ok(TypeDefComposite { fields })
    }

    ghost ordered = { λ v. refl };

    ghost law = { composite_law };
}

impl Object for TypeDefVariant<PortableForm> {
    ghost rows = { variant_type_rows };

    ghost meant = { MeansVariantType };

    fn write_members<W: ObjectWriter>(&self, out: &mut W) -> Result<(), AllocError> {
        out.write_unless_empty("variants", &self.variants)
    }

    fn read_members(
        alloc: Global,
        tree: &Value,
    ) -> Result<TypeDefVariant<PortableForm>, JsonError> {
        require_object(tree)?;
        let variants = list_or_empty(alloc, tree, "variants")?;
        Ok(TypeDefVariant { variants })
    }

    ghost ordered = { λ v. refl };

    ghost law = { variant_type_law };
}

impl Object for TypeDefSequence<PortableForm> {
    ghost rows = { sequence_rows };

    ghost meant = { MeansSequence };

    fn write_members<W: ObjectWriter>(&self, out: &mut W) -> Result<(), AllocError> {
        out.write_member("type", &self.type_param)
    }

    fn read_members(
        alloc: Global,
        tree: &Value,
    ) -> Result<TypeDefSequence<PortableForm>, JsonError> {
        require_object(tree)?;
        let type_param = required(alloc, tree, "type")?;
        Ok(TypeDefSequence::new(type_param))
    }

    ghost ordered = { λ v. refl };

    ghost law = { sequence_law };
}

impl Object for TypeDefArray<PortableForm> {
    ghost rows = { array_rows };

    ghost meant = { MeansArray };

    fn write_members<W: ObjectWriter>(&self, out: &mut W) -> Result<(), AllocError> {
        out.write_member("len", &self.len)?;
        out.write_member("type", &self.type_param)
    }

    fn read_members(alloc: Global, tree: &Value) -> Result<TypeDefArray<PortableForm>, JsonError> {
        require_object(tree)?;
        let len = required(alloc, tree, "len")?;
        let type_param = required(alloc, tree, "type")?;
        Ok(TypeDefArray::new(len, type_param))
    }

    ghost ordered = { λ v. refl };

    ghost law = { array_law };
}

impl Object for TypeDefCompact<PortableForm> {
    ghost rows = { compact_rows };

    ghost meant = { MeansCompact };

    fn write_members<W: ObjectWriter>(&self, out: &mut W) -> Result<(), AllocError> {
        out.write_member("type", &self.type_param)
    }

    fn read_members(
        alloc: Global,
        tree: &Value,
    ) -> Result<TypeDefCompact<PortableForm>, JsonError> {
        require_object(tree)?;
        let type_param = required(alloc, tree, "type")?;
        Ok(TypeDefCompact::new(type_param))
    }

    ghost ordered = { λ v. refl };

    ghost law = { compact_law };
}

impl Object for TypeDefBitSequence<PortableForm> {
    ghost rows = { bit_sequence_rows };

    ghost meant = { MeansBitSequence };

    fn write_members<W: ObjectWriter>(&self, out: &mut W) -> Result<(), AllocError> {
        out.write_member("bit_order_type", &self.bit_order_type)?;
        out.write_member("bit_store_type", &self.bit_store_type)
    }

    fn read_members(
        alloc: Global,
        tree: &Value,
    ) -> Result<TypeDefBitSequence<PortableForm>, JsonError> {
        require_object(tree)?;
        let store = required(alloc, tree, "bit_store_type")?;
        let order = required(alloc, tree, "bit_order_type")?;
        Ok(TypeDefBitSequence::new_portable(store, order))
    }

    ghost ordered = { λ v. refl };

    ghost law = { bit_sequence_law };
}

impl Object for TypeDefMap<PortableForm> {
    ghost rows = { map_rows };

    ghost meant = { MeansMap };

    fn write_members<W: ObjectWriter>(&self, out: &mut W) -> Result<(), AllocError> {
        out.write_member("key", &self.key)?;
        out.write_member("value", &self.value)
    }

    fn read_members(alloc: Global, tree: &Value) -> Result<TypeDefMap<PortableForm>, JsonError> {
        require_object(tree)?;
        let key = required(alloc, tree, "key")?;
        let value = required(alloc, tree, "value")?;
        Ok(TypeDefMap::new(key, value))
    }

    ghost ordered = { λ v. refl };

    ghost law = { map_law };
}

/// The primitive with a name, as `u8`; None where no primitive has it.
pub fn primitive_named(name: &str) -> Option<TypeDefPrimitive>
    ensures some { IfSome result (λ p. name.now ≡ primitive_name p) }
    ensures none { IfNone result (IsMeaningless (λ p. name.now ≡ primitive_name p)) }
{
    match name {
        "bool" => Some(TypeDefPrimitive::Bool),
        "char" => Some(TypeDefPrimitive::Char),
        "str" => Some(TypeDefPrimitive::Str),
        "u8" => Some(TypeDefPrimitive::U8),
        "u16" => Some(TypeDefPrimitive::U16),
        "u32" => Some(TypeDefPrimitive::U32),
        "u64" => Some(TypeDefPrimitive::U64),
        "u128" => Some(TypeDefPrimitive::U128),
        "u256" => Some(TypeDefPrimitive::U256),
        "i8" => Some(TypeDefPrimitive::I8),
        "i16" => Some(TypeDefPrimitive::I16),
        "i32" => Some(TypeDefPrimitive::I32),
        "i64" => Some(TypeDefPrimitive::I64),
        "i128" => Some(TypeDefPrimitive::I128),
        "i256" => Some(TypeDefPrimitive::I256),
        _ => None,
    }
}

impl Json for TypeDefPrimitive {
    ghost written = { primitive_tree };

    ghost meant = { MeansPrimitive };

    fn to_json(&self, alloc: Global) -> Result<Value, AllocError> {
        Value::try_from_str(alloc, self.name())
    }

    fn write_json(&self, out: &mut Writer) -> Result<(), AllocError> {
        out.string(self.name())
    }

    fn from_json(_alloc: Global, tree: &Value) -> Result<TypeDefPrimitive, JsonError> {
        match tree.as_str() {
            Some(name) => match primitive_named(name) {
                Some(primitive) => Ok(primitive),
                None => Err(JsonError::Shape),
            },
            None => Err(JsonError::Shape),
        }
    }

    ghost law = { primitive_law };
}

/// The one key of an object and its tree; None where the tree is no object with one key.
fn only_member(tree: &Value) -> Option<(&str, &Value)>
    ensures some { IfSome result (λ found. HasOnly (view tree.now) found.0.now (view found.1.now)) }
    ensures none { IfNone result ((key : List ℕ) (value : Data)
        → HasOnly (view tree.now) key value → ⊥) }
{
    let members = tree.as_object()?;
    if members.len() != 1 {
        return None;
    }
    let (key, value) = members.first_key_value()?;
    Some((key.as_str(), value))
}

/// The definition that a key and its tree mean.
///
/// Errors: `Shape`, where they mean none; `Memory`, if an allocation failed.
#[tactic(auto, using(scale_info_json_trees::specs::DefinitionTrees::definitions))]
fn definition_under(
    alloc: Global,
    key: &str,
    tree: &Value,
) -> Result<TypeDef<PortableForm>, JsonError>
    ensures ok { IfOk result (λ v. MeansUnder key.now (view tree.now) v) }
    ensures shape { IfErr result (IfShape
        (IsMeaningless (λ v. MeansUnder key.now (view tree.now) v))) }
{
    match key {
        "composite" => Ok(TypeDef::Composite(Json::from_json(alloc, tree)?)),
        "variant" => Ok(TypeDef::Variant(Json::from_json(alloc, tree)?)),
        "sequence" => Ok(TypeDef::Sequence(Json::from_json(alloc, tree)?)),
        "array" => Ok(TypeDef::Array(Json::from_json(alloc, tree)?)),
        "tuple" => {
            let fields = Items::from_json(alloc, tree)?;
            Ok(TypeDef::Tuple(TypeDefTuple::from(fields)))
        }
        "primitive" => Ok(TypeDef::Primitive(Json::from_json(alloc, tree)?)),
        "compact" => Ok(TypeDef::Compact(Json::from_json(alloc, tree)?)),
        "bitsequence" => Ok(TypeDef::BitSequence(Json::from_json(alloc, tree)?)),
        "map" => Ok(TypeDef::Map(Json::from_json(alloc, tree)?)),
        _ => Err(JsonError::Shape),
    }
}

impl Object for TypeDef<PortableForm> {
    ghost rows = { type_def_rows };

    ghost meant = { MeansTypeDef };

    #[tactic(auto, using(scale_info_json_trees::specs::DefinitionTrees::definitions))]
    fn write_members<W: ObjectWriter>(&self, out: &mut W) -> Result<(), AllocError> {
        match self {
            TypeDef::Composite(def) => out.write_member("composite", def),
            TypeDef::Variant(def) => out.write_member("variant", def),
            TypeDef::Sequence(def) => out.write_member("sequence", def),
            TypeDef::Array(def) => out.write_member("array", def),
            TypeDef::Tuple(def) => out.write_member("tuple", &def.fields),
            TypeDef::Primitive(def) => out.write_member("primitive", def),
            TypeDef::Compact(def) => out.write_member("compact", def),
            TypeDef::BitSequence(def) => out.write_member("bitsequence", def),
            TypeDef::Map(def) => out.write_member("map", def),
        }
    }

    fn read_members(alloc: Global, tree: &Value) -> Result<TypeDef<PortableForm>, JsonError> {
        match only_member(tree) {
            Some((key, value)) => definition_under(alloc, key, value),
            None => Err(JsonError::Shape),
        }
    }

    ghost ordered = { λ v. refl };

    ghost law = { type_def_law };
}

impl Object for Field<PortableForm> {
    ghost rows = { field_rows };

    ghost meant = { MeansField };

    fn write_members<W: ObjectWriter>(&self, out: &mut W) -> Result<(), AllocError> {
        out.write_unless_empty("docs", &self.docs)?;
        out.write_unless_none("name", &self.name)?;
        out.write_member("type", &self.ty)?;
        out.write_unless_none("typeName", &self.type_name)
    }

    fn read_members(alloc: Global, tree: &Value) -> Result<Field<PortableForm>, JsonError> {
        require_object(tree)?;
        let docs = list_or_empty(alloc, tree, "docs")?;
        let name = value_or_none(alloc, tree, "name")?;
        let ty = required(alloc, tree, "type")?;
        let type_name = value_or_none(alloc, tree, "typeName")?;
        Ok(Field {
            name,
            ty,
            type_name,
            docs,
        })
    }

    ghost ordered = { λ v. refl };

    ghost law = { field_law };
}

impl Object for Variant<PortableForm> {
    ghost rows = { variant_rows };

    ghost meant = { MeansVariant };

    fn write_members<W: ObjectWriter>(&self, out: &mut W) -> Result<(), AllocError> {
        out.write_unless_empty("docs", &self.docs)?;
        out.write_unless_empty("fields", &self.fields)?;
        out.write_member("index", &self.index)?;
        out.write_member("name", &self.name)
    }

    fn read_members(alloc: Global, tree: &Value) -> Result<Variant<PortableForm>, JsonError> {
        require_object(tree)?;
        let docs = list_or_empty(alloc, tree, "docs")?;
        let fields = list_or_empty(alloc, tree, "fields")?;
        let index = required(alloc, tree, "index")?;
        let name = required(alloc, tree, "name")?;
        Ok(Variant {
            name,
            fields,
            index,
            docs,
        })
    }

    ghost ordered = { λ v. refl };

    ghost law = { variant_law };
}
