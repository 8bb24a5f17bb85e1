//! Standard types with type arguments that are known by themselves, and `PhantomData`.
ghost use Rattle.std.specs.Prelude.{◌≡◌, IfOk};
ghost use Rattle.scale_info_identities.specs.TypeIds.{term_of};
ghost use Rattle.scale_info_type_ids.specs.StandardTerms.{b_tree_map_term, b_tree_set_term};
ghost use Rattle.scale_info_type_ids.specs.StandardTerms.{binary_heap_term, cow_term, option_term};
ghost use Rattle.scale_info_type_ids.specs.StandardTerms.{phantom_data_term, range_inclusive_term};
ghost use Rattle.scale_info_type_ids.specs.StandardTerms.{range_term, result_term};
ghost use Rattle.scale_info_type_ids.specs.StandardTerms.{applied_to_two as two};

use super::applied_type;
use crate::identified::{HasIdentity, Identified};
use scale_info_identities::type_id::TypeId;
use std::alloc::{AllocError, Global};
use std::borrow::Cow;
use std::collections::{BTreeMap, BTreeSet, BinaryHeap};
use std::marker::PhantomData;
use std::ops::{Range, RangeInclusive};

/// The identity of a type with the two parameters `A` and `B`.
fn applied_to_two<A: Identified, B: Identified>(
    alloc: Global,
    head: &'static str,
) -> Result<TypeId, AllocError>
    ensures { IfOk result (λ id. term_of id ≡ two head.now A.own B.own) }
{
    let args = vec![in alloc; A::type_id(alloc)?, B::type_id(alloc)?]?;
    Ok(TypeId::new(head, Vec::new(alloc), args))
}

impl<T: Identified> Identified for Option<T> {
    ghost own = { option_term T.own };

    fn type_id(alloc: Global) -> Result<TypeId, AllocError> {
        applied_type::<T>(alloc, "Option")
    }
}

impl<T: Identified> HasIdentity for Option<T> {
    type Identity = Option<T>;
}

impl<T: Identified + Clone> Identified for Cow<'static, T> {
    ghost own = { cow_term T.own };

    fn type_id(alloc: Global) -> Result<TypeId, AllocError> {
        applied_type::<T>(alloc, "Cow")
    }
}

impl<T: Identified + Clone> HasIdentity for Cow<'static, T> {
    type Identity = Cow<'static, T>;
}

impl<T: Identified + Ord> Identified for BTreeSet<T> {
    ghost own = { b_tree_set_term T.own };

    fn type_id(alloc: Global) -> Result<TypeId, AllocError> {
        applied_type::<T>(alloc, "BTreeSet")
    }
}

impl<T: Identified + Ord> HasIdentity for BTreeSet<T> {
    type Identity = BTreeSet<T>;
}

impl<T: Identified + Ord> Identified for BinaryHeap<T> {
    ghost own = { binary_heap_term T.own };

    fn type_id(alloc: Global) -> Result<TypeId, AllocError> {
        applied_type::<T>(alloc, "BinaryHeap")
    }
}

impl<T: Identified + Ord> HasIdentity for BinaryHeap<T> {
    type Identity = BinaryHeap<T>;
}

impl<T: Identified> Identified for Range<T> {
    ghost own = { range_term T.own };

    fn type_id(alloc: Global) -> Result<TypeId, AllocError> {
        applied_type::<T>(alloc, "Range")
    }
}

impl<T: Identified> HasIdentity for Range<T> {
    type Identity = Range<T>;
}

impl<T: Identified> Identified for RangeInclusive<T> {
    ghost own = { range_inclusive_term T.own };

    fn type_id(alloc: Global) -> Result<TypeId, AllocError> {
        applied_type::<T>(alloc, "RangeInclusive")
    }
}

impl<T: Identified> HasIdentity for RangeInclusive<T> {
    type Identity = RangeInclusive<T>;
}

impl<T: Identified, E: Identified> Identified for Result<T, E> {
    ghost own = { result_term T.own E.own };

    fn type_id(alloc: Global) -> Result<TypeId, AllocError> {
        applied_to_two::<T, E>(alloc, "Result")
    }
}

impl<T: Identified, E: Identified> HasIdentity for Result<T, E> {
    type Identity = Result<T, E>;
}

impl<K: Identified + Ord, V: Identified> Identified for BTreeMap<K, V> {
    ghost own = { b_tree_map_term K.own V.own };

    fn type_id(alloc: Global) -> Result<TypeId, AllocError> {
        applied_to_two::<K, V>(alloc, "BTreeMap")
    }
}

impl<K: Identified + Ord, V: Identified> HasIdentity for BTreeMap<K, V> {
    type Identity = BTreeMap<K, V>;
}

impl<T: Identified> Identified for PhantomData<T> {
    ghost own = { phantom_data_term T.own };

    fn type_id(alloc: Global) -> Result<TypeId, AllocError> {
        applied_type::<T>(alloc, "PhantomData")
    }
}

impl<T: Identified> HasIdentity for PhantomData<T> {
    type Identity = PhantomData<()>;
}
