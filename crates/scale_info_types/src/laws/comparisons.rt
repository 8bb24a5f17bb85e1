//! The order of definitions.
ghost use Rattle.scale_info_types.specs.Orders.{definition_index};
ghost use Rattle.scale_info_types.specs.declared.ty.TypeDef as definitions;
ghost use Rattle.scale_info_types.specs.declared.ty.TypeDef.TheVariants as def;
ghost use Rattle.scale_info_types.specs.declared.ty.TypeDefArray as arrays;
ghost use Rattle.scale_info_types.specs.declared.ty.TypeDefBitSequence as bit_sequences;
ghost use Rattle.scale_info_types.specs.declared.ty.TypeDefCompact as compacts;
ghost use Rattle.scale_info_types.specs.declared.ty.TypeDefMap as maps;
ghost use Rattle.scale_info_primitives.specs.declared.primitive.TypeDefPrimitive as primitives;
ghost use Rattle.scale_info_types.specs.declared.ty.TypeDefSequence as sequences;
ghost use Rattle.scale_info_types.specs.declared.ty.TypeDefTuple as tuples;
ghost use Rattle.scale_info_types.specs.declared.ty.composite.TypeDefComposite as composites;
ghost use Rattle.scale_info_types.specs.declared.ty.variant.TypeDefVariant as enums;
ghost use Rattle.std.specs.Prelude.{◌≡◌, ◌<◌};
ghost use Rattle.std.specs.declared.cmp.Ordering.TheVariants.{Greater, Less};

use crate::form::Form;
use crate::ty::{
    TypeDef, TypeDefArray, TypeDefBitSequence, TypeDefCompact, TypeDefComposite, TypeDefMap,
    TypeDefPrimitive, TypeDefSequence, TypeDefTuple, TypeDefVariant,
};

/// Of two definitions of different variants the one that is declared first comes first; two of one
/// variant are ordered as what they hold.
///
/// So each composite comes before each enum.
pub fn ordered_definitions<T: Form>()
    ensures variants { (a b : definitions.TypeDef T T.Ty T.String)
        → definition_index a < definition_index b
        → (⟦<TypeDef<T> as Ord>⟧.cmp a b ≡ Less) × (⟦<TypeDef<T> as Ord>⟧.cmp b a ≡ Greater) }
    ensures composites { (a b : composites.TypeDefComposite T T.Ty T.String)
        → ⟦<TypeDef<T> as Ord>⟧.cmp (def.Composite a) (def.Composite b)
        ≡ ⟦<TypeDefComposite<T> as Ord>⟧.cmp a b }
    ensures enums { (a b : enums.TypeDefVariant T T.Ty T.String)
        → ⟦<TypeDef<T> as Ord>⟧.cmp (def.Variant a) (def.Variant b)
        ≡ ⟦<TypeDefVariant<T> as Ord>⟧.cmp a b }
    ensures sequences { (a b : sequences.TypeDefSequence T T.Ty T.String)
        → ⟦<TypeDef<T> as Ord>⟧.cmp (def.Sequence a) (def.Sequence b)
        ≡ ⟦<TypeDefSequence<T> as Ord>⟧.cmp a b }
    ensures arrays { (a b : arrays.TypeDefArray T T.Ty T.String)
        → ⟦<TypeDef<T> as Ord>⟧.cmp (def.Array a) (def.Array b)
        ≡ ⟦<TypeDefArray<T> as Ord>⟧.cmp a b }
    ensures tuples { (a b : tuples.TypeDefTuple T T.Ty T.String)
        → ⟦<TypeDef<T> as Ord>⟧.cmp (def.Tuple a) (def.Tuple b)
        ≡ ⟦<TypeDefTuple<T> as Ord>⟧.cmp a b }
    ensures primitives { (a b : primitives.TypeDefPrimitive)
        → ⟦<TypeDef<T> as Ord>⟧.cmp (def.Primitive a) (def.Primitive b)
        ≡ ⟦<TypeDefPrimitive as Ord>⟧.cmp a b }
    ensures compacts { (a b : compacts.TypeDefCompact T T.Ty T.String)
        → ⟦<TypeDef<T> as Ord>⟧.cmp (def.Compact a) (def.Compact b)
        ≡ ⟦<TypeDefCompact<T> as Ord>⟧.cmp a b }
    ensures bit_sequences { (a b : bit_sequences.TypeDefBitSequence T T.Ty T.String)
        → ⟦<TypeDef<T> as Ord>⟧.cmp (def.BitSequence a) (def.BitSequence b)
        ≡ ⟦<TypeDefBitSequence<T> as Ord>⟧.cmp a b }
    ensures maps { (a b : maps.TypeDefMap T T.Ty T.String)
        → ⟦<TypeDef<T> as Ord>⟧.cmp (def.Map a) (def.Map b) ≡ ⟦<TypeDefMap<T> as Ord>⟧.cmp a b }
{}
