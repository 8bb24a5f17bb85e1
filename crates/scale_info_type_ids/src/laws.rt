//! Which type a standard type is known by.
ghost use Rattle.std.specs.Prelude.{◌≡◌, [], ◌∷◌, codes};
ghost use Rattle.scale_info_type_ids.specs.StandardTerms.{array_term, b_tree_map_term};
ghost use Rattle.scale_info_type_ids.specs.StandardTerms.{b_tree_set_term, binary_heap_term};
ghost use Rattle.scale_info_type_ids.specs.StandardTerms.{compact_term, cow_term, option_term};
ghost use Rattle.scale_info_type_ids.specs.StandardTerms.{phantom_data_term, primitive_term};
ghost use Rattle.scale_info_type_ids.specs.StandardTerms.{range_inclusive_term, range_term};
ghost use Rattle.scale_info_type_ids.specs.StandardTerms.{result_term, slice_term, standard_term};
ghost use Rattle.scale_info_type_ids.specs.StandardTerms.{str_term, tuple_term};

use crate::identified::{HasIdentity, Identified};
use crate::impls::{Compact, SliceOf, StrType};
use std::borrow::Cow;
use std::collections::{BTreeMap, BTreeSet, BinaryHeap, VecDeque};
use std::marker::PhantomData;
use std::num::{
    NonZeroI8, NonZeroI16, NonZeroI32, NonZeroI64, NonZeroI128, NonZeroU8, NonZeroU16, NonZeroU32,
    NonZeroU64, NonZeroU128,
};
use std::ops::{Range, RangeInclusive};
use std::rc::Rc;
use std::time::Duration;

mod tuples;

pub use tuples::own_tuple_identities;

/// Types that are known by themselves: built-in types, arrays, tuples of up to two members, compact
/// numbers, and the two types that stand for others, `SliceOf<T>` and `StrType`.
pub fn own_identities<T: Identified, U: Identified, const N: usize>()
    ensures bool_itself { ⟦<<bool as HasIdentity>::Identity as Identified>⟧.own
        ≡ primitive_term (codes "bool") }
    ensures char_itself { ⟦<<char as HasIdentity>::Identity as Identified>⟧.own
        ≡ primitive_term (codes "char") }
    ensures u8_itself { ⟦<<u8 as HasIdentity>::Identity as Identified>⟧.own
        ≡ primitive_term (codes "u8") }
    ensures u16_itself { ⟦<<u16 as HasIdentity>::Identity as Identified>⟧.own
        ≡ primitive_term (codes "u16") }
    ensures u32_itself { ⟦<<u32 as HasIdentity>::Identity as Identified>⟧.own
        ≡ primitive_term (codes "u32") }
    ensures u64_itself { ⟦<<u64 as HasIdentity>::Identity as Identified>⟧.own
        ≡ primitive_term (codes "u64") }
    ensures u128_itself { ⟦<<u128 as HasIdentity>::Identity as Identified>⟧.own
        ≡ primitive_term (codes "u128") }
    ensures i8_itself { ⟦<<i8 as HasIdentity>::Identity as Identified>⟧.own
        ≡ primitive_term (codes "i8") }
    ensures i16_itself { ⟦<<i16 as HasIdentity>::Identity as Identified>⟧.own
        ≡ primitive_term (codes "i16") }
    ensures i32_itself { ⟦<<i32 as HasIdentity>::Identity as Identified>⟧.own
        ≡ primitive_term (codes "i32") }
    ensures i64_itself { ⟦<<i64 as HasIdentity>::Identity as Identified>⟧.own
        ≡ primitive_term (codes "i64") }
    ensures i128_itself { ⟦<<i128 as HasIdentity>::Identity as Identified>⟧.own
        ≡ primitive_term (codes "i128") }
    ensures array_itself { ⟦<<[T; N] as HasIdentity>::Identity as Identified>⟧.own
        ≡ array_term N T.own }
    ensures unit_itself { ⟦<<() as HasIdentity>::Identity as Identified>⟧.own ≡ tuple_term [] }
    ensures single_itself { ⟦<<(T,) as HasIdentity>::Identity as Identified>⟧.own
        ≡ tuple_term (T.own ∷ []) }
    ensures pair_itself { ⟦<<(T, U) as HasIdentity>::Identity as Identified>⟧.own
        ≡ tuple_term (T.own ∷ U.own ∷ []) }
    ensures compact_itself { ⟦<<Compact<T> as HasIdentity>::Identity as Identified>⟧.own
        ≡ compact_term T.own }
    ensures slice_itself { ⟦<<SliceOf<T> as HasIdentity>::Identity as Identified>⟧.own
        ≡ slice_term T.own }
    ensures str_itself { ⟦<<StrType as HasIdentity>::Identity as Identified>⟧.own ≡ str_term }
{}

/// Types of the standard library that are known by themselves: numbers that are not zero, lengths
/// of time, and types with arguments that have a description of their own.
pub fn own_standard_identities<
    T: Identified,
    K: Identified + Ord,
    C: Identified + Clone + 'static,
>()
    ensures non_zero_u8_itself { ⟦<<NonZeroU8 as HasIdentity>::Identity as Identified>⟧.own
        ≡ standard_term (codes "NonZeroU8") }
    ensures non_zero_u16_itself { ⟦<<NonZeroU16 as HasIdentity>::Identity as Identified>⟧.own
        ≡ standard_term (codes "NonZeroU16") }
    ensures non_zero_u32_itself { ⟦<<NonZeroU32 as HasIdentity>::Identity as Identified>⟧.own
        ≡ standard_term (codes "NonZeroU32") }
    ensures non_zero_u64_itself { ⟦<<NonZeroU64 as HasIdentity>::Identity as Identified>⟧.own
        ≡ standard_term (codes "NonZeroU64") }
    ensures non_zero_u128_itself { ⟦<<NonZeroU128 as HasIdentity>::Identity as Identified>⟧.own
        ≡ standard_term (codes "NonZeroU128") }
    ensures non_zero_i8_itself { ⟦<<NonZeroI8 as HasIdentity>::Identity as Identified>⟧.own
        ≡ standard_term (codes "NonZeroI8") }
    ensures non_zero_i16_itself { ⟦<<NonZeroI16 as HasIdentity>::Identity as Identified>⟧.own
        ≡ standard_term (codes "NonZeroI16") }
    ensures non_zero_i32_itself { ⟦<<NonZeroI32 as HasIdentity>::Identity as Identified>⟧.own
        ≡ standard_term (codes "NonZeroI32") }
    ensures non_zero_i64_itself { ⟦<<NonZeroI64 as HasIdentity>::Identity as Identified>⟧.own
        ≡ standard_term (codes "NonZeroI64") }
    ensures non_zero_i128_itself { ⟦<<NonZeroI128 as HasIdentity>::Identity as Identified>⟧.own
        ≡ standard_term (codes "NonZeroI128") }
    ensures duration_itself { ⟦<<Duration as HasIdentity>::Identity as Identified>⟧.own
        ≡ standard_term (codes "Duration") }
    ensures option_itself { ⟦<<Option<T> as HasIdentity>::Identity as Identified>⟧.own
        ≡ option_term T.own }
    ensures result_itself { ⟦<<Result<T, K> as HasIdentity>::Identity as Identified>⟧.own
        ≡ result_term T.own K.own }
    ensures cow_itself { ⟦<<Cow<'static, C> as HasIdentity>::Identity as Identified>⟧.own
        ≡ cow_term C.own }
    ensures b_tree_map_itself { ⟦<<BTreeMap<K, T> as HasIdentity>::Identity as Identified>⟧.own
        ≡ b_tree_map_term K.own T.own }
    ensures b_tree_set_itself { ⟦<<BTreeSet<K> as HasIdentity>::Identity as Identified>⟧.own
        ≡ b_tree_set_term K.own }
    ensures binary_heap_itself { ⟦<<BinaryHeap<K> as HasIdentity>::Identity as Identified>⟧.own
        ≡ binary_heap_term K.own }
    ensures range_itself { ⟦<<Range<T> as HasIdentity>::Identity as Identified>⟧.own
        ≡ range_term T.own }
    ensures inclusive_itself { ⟦<<RangeInclusive<T> as HasIdentity>::Identity as Identified>⟧.own
        ≡ range_inclusive_term T.own }
{}

/// Types that are known by another: what is described as a sequence by `SliceOf<T>`, texts by
/// `StrType`, pointers by what they point to, and each `PhantomData` by `PhantomData<()>`.
///
/// So `Vec<u8>` and `&[u8]` share one entry of a table, and `Box<u8>` has that of `u8`.
pub fn shared_identities<'a, T: Identified + 'a>()
    ensures vec { ⟦<<Vec<T> as HasIdentity>::Identity as Identified>⟧.own ≡ slice_term T.own }
    ensures vec_deque { ⟦<<VecDeque<T> as HasIdentity>::Identity as Identified>⟧.own
        ≡ slice_term T.own }
    ensures slice_reference { ⟦<<&'a [T] as HasIdentity>::Identity as Identified>⟧.own
        ≡ slice_term T.own }
    ensures string { ⟦<<String as HasIdentity>::Identity as Identified>⟧.own ≡ str_term }
    ensures str_reference { ⟦<<&'a str as HasIdentity>::Identity as Identified>⟧.own ≡ str_term }
    ensures boxed { ⟦<<Box<T> as HasIdentity>::Identity as Identified>⟧.own ≡ T.own }
    ensures counted { ⟦<<Rc<T> as HasIdentity>::Identity as Identified>⟧.own ≡ T.own }
    ensures reference { ⟦<<&'a T as HasIdentity>::Identity as Identified>⟧.own ≡ T.own }
    ensures mutable_reference { ⟦<<&'a mut T as HasIdentity>::Identity as Identified>⟧.own ≡ T.own }
    ensures phantom_data { ⟦<<PhantomData<T> as HasIdentity>::Identity as Identified>⟧.own
        ≡ phantom_data_term (tuple_term []) }
{}
