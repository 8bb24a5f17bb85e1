//! Definitions by the types that they refer to.
ghost use Rattle.std.specs.Prelude.{◌≡◌, IfOk};
ghost use Rattle.scale_info_types.specs.MetaDescriptions.{type_term};

use super::{TypeDefBitSequence, TypeDefSequence};
use crate::form::MetaForm;
use crate::meta_type::MetaType;
use scale_info_type_ids::identified::HasIdentity;
use std::alloc::{AllocError, Global};

impl TypeDefSequence<MetaForm> {
    /// The sequence of items of the type `T`.
    ///
    /// ```text
    /// let items = TypeDefSequence::of::<u8>(alloc)?;
    /// Type::from_def(alloc, items.into())  // the description of Vec<u8>
    /// ```
    ///
    /// Errors: `AllocError`, if an allocation failed.
    pub fn of<T: HasIdentity>(alloc: Global) -> Result<TypeDefSequence, AllocError>
        ensures { IfOk result (λ d. type_term d.type_param ≡ T.Identity.own) }
    {
        Ok(TypeDefSequence::new(MetaType::new::<T>(alloc)?))
    }
}

impl TypeDefBitSequence<MetaForm> {
    /// The bit sequence that keeps its bits in numbers of the type `Store`, in the order that
    /// `Order` names.
    ///
    /// Errors: `AllocError`, if an allocation failed.
    pub fn new<Store: HasIdentity, Order: HasIdentity>(
        alloc: Global,
    ) -> Result<TypeDefBitSequence, AllocError>
        ensures store { IfOk result (λ d. type_term d.bit_store_type ≡ Store.Identity.own) }
        ensures order { IfOk result (λ d. type_term d.bit_order_type ≡ Order.Identity.own) }
    {
        let store = MetaType::new::<Store>(alloc)?;
        let order = MetaType::new::<Order>(alloc)?;
        Ok(TypeDefBitSequence::of_types(store, order))
    }
}
