//! Types of a program's own.
ghost use Rattle.std.specs.Prelude.{◌∷◌, [], codes};
ghost use Rattle.scale_info_identities.specs.TypeIds.{no_terms, term};

use scale_info::TypeId;
use scale_info::meta_type::{HasIdentity, Identified};
use std::alloc::{AllocError, Global};

/// A type of a program's own, which differs from the others by its number.
pub struct Own<const N: usize>;

impl<const N: usize> Identified for Own<N> {
    ghost own = { term (codes "demo::Own") (N ∷ []) no_terms };

    fn type_id(alloc: Global) -> Result<TypeId, AllocError> {
        Ok(TypeId::new("demo::Own", vec![in alloc; N]?, Vec::new(alloc)))
    }
}

impl<const N: usize> HasIdentity for Own<N> {
    type Identity = Own<N>;
}

/// An enum of itself, with docs.
pub type Recursive = Own<0>;
/// A sequence of bits.
pub type Bits = Own<1>;
/// A map from `u32` to `bool`.
pub type Mapping = Own<2>;
/// A type that no catalogue of [`catalogue`](crate::types::catalogue) has.
pub type Missing = Own<3>;
/// A composite of `u32` and of [`Missing`].
pub type Referring = Own<4>;
/// A composite of a [`B`] and a [`C`].
pub type A = Own<5>;
/// A composite of a [`D`].
pub type B = Own<6>;
/// A composite without fields.
pub type C = Own<7>;
/// A composite of an [`A`].
pub type D = Own<8>;
/// A composite with a skipped parameter and one that is given `bool`.
pub type P = Own<9>;
/// A composite of forty fields of `u32`.
pub type Wide = Own<10>;
/// An enum of itself, without docs.
pub type EnumOfItself = Own<11>;
/// A composite of itself through a box and two references.
pub type References = Own<12>;
/// An enum with docs of the type, a variant and its field.
pub type Documented = Own<13>;
/// A composite of `u32`, `[u8; 32]` and `bool`.
pub type Fielded = Own<14>;
/// An enum of `u32` or `bool`.
pub type Choice = Own<15>;
/// The primitive `u256`.
pub type U256 = Own<16>;
/// The primitive `i256`.
pub type I256 = Own<17>;
