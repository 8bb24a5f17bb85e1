//! Built-in types and their names.
ghost use Rattle.std.specs.Prelude.{◌≡◌};
ghost use Rattle.scale_info_primitives.specs.Primitives.{primitive_name};

use scale_info_collections::try_clone::TryClone;
use std::alloc::{AllocError, Global};

/// A built-in type.
#[derive(Clone, Copy, PartialEq, Eq, PartialOrd, Ord)]
pub enum TypeDefPrimitive {
    Bool,
    Char,
    Str,
    U8,
    U16,
    U32,
    U64,
    U128,
    /// An unsigned number of 256 bits.
    U256,
    I8,
    I16,
    I32,
    I64,
    I128,
    /// A signed number of 256 bits.
    I256,
}

impl TypeDefPrimitive {
    /// The name of the type: as Rust writes it, and `u256` and `i256` for the two that Rust lacks.
    ///
    /// ```text
    /// TypeDefPrimitive::U32.name()  // "u32"
    /// ```
    pub fn name(&self) -> &'static str
        ensures { result.now ≡ primitive_name self.now }
    {
        match self {
            TypeDefPrimitive::Bool => "bool",
            TypeDefPrimitive::Char => "char",
            TypeDefPrimitive::Str => "str",
            TypeDefPrimitive::U8 => "u8",
            TypeDefPrimitive::U16 => "u16",
            TypeDefPrimitive::U32 => "u32",
            TypeDefPrimitive::U64 => "u64",
            TypeDefPrimitive::U128 => "u128",
            TypeDefPrimitive::U256 => "u256",
            TypeDefPrimitive::I8 => "i8",
            TypeDefPrimitive::I16 => "i16",
            TypeDefPrimitive::I32 => "i32",
            TypeDefPrimitive::I64 => "i64",
            TypeDefPrimitive::I128 => "i128",
            TypeDefPrimitive::I256 => "i256",
        }
    }
}

impl TryClone for TypeDefPrimitive {
    fn try_clone(&self, _alloc: Global) -> Result<TypeDefPrimitive, AllocError> {
        Ok(*self)
    }
}
