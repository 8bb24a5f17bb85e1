//! The program's generic types, and what they are described as.
ghost use Rattle.std.specs.Prelude.{◌≡◌, IfOk};
ghost use Rattle.scale_info_identities.specs.TypeIds.{term_of};
ghost use Rattle.scale_info_type_ids.specs.StandardTerms.{applied as applied_term};
ghost use Rattle.type_table_bench.specs.Described.{account_term, call_term};
ghost use Rattle.type_table_bench.specs.Described.{event_term, layer_term};

use crate::random::Random;
use scale_info::meta_type::{HasIdentity, Identified};
use scale_info::{
    Field, Items, MetaType, Path, TryClone, Type, TypeDef, TypeDefComposite, TypeDefVariant,
    TypeId, Variant,
};
use std::alloc::{AllocError, Global};
use std::marker::PhantomData;

/// The names of fields and variants.
const NAMES: [&str; 24] = [
    "Transfer",
    "TransferAll",
    "ForceTransfer",
    "TransferKeepAlive",
    "Unreserve",
    "Upgrade",
    "SetBalance",
    "AdjustIssuance",
    "Burn",
    "Propose",
    "Second",
    "Vote",
    "EmergencyCancel",
    "Delegate",
    "Undelegate",
    "ClearPublicProposals",
    "Unlock",
    "RemoveVote",
    "Blacklist",
    "CancelProposal",
    "SetMetadata",
    "Bond",
    "Unbond",
    "Rebond",
];

/// A struct of the program.
pub struct Account<T> {
    marker: PhantomData<T>,
}

/// An enum of the program.
pub struct Call<T> {
    marker: PhantomData<T>,
}

/// An enum of the program.
pub struct Event<T> {
    marker: PhantomData<T>,
}

/// A struct of the program.
pub struct Layer<T> {
    marker: PhantomData<T>,
}

impl<T: Identified> Identified for Account<T> {
    ghost own = { account_term T.own };

    fn type_id(alloc: Global) -> Result<TypeId, AllocError> {
        applied::<T>(alloc, "example_runtime::pallets::accounts::Account")
    }
}

impl<T: Identified> HasIdentity for Account<T> {
    type Identity = Account<T>;
}

impl<T: Identified> Identified for Call<T> {
    ghost own = { call_term T.own };

    fn type_id(alloc: Global) -> Result<TypeId, AllocError> {
        applied::<T>(alloc, "example_runtime::pallets::accounts::Call")
    }
}

impl<T: Identified> HasIdentity for Call<T> {
    type Identity = Call<T>;
}

impl<T: Identified> Identified for Event<T> {
    ghost own = { event_term T.own };

    fn type_id(alloc: Global) -> Result<TypeId, AllocError> {
        applied::<T>(alloc, "example_runtime::pallets::accounts::Event")
    }
}

impl<T: Identified> HasIdentity for Event<T> {
    type Identity = Event<T>;
}

impl<T: Identified> Identified for Layer<T> {
    ghost own = { layer_term T.own };

    fn type_id(alloc: Global) -> Result<TypeId, AllocError> {
        applied::<T>(alloc, "example_runtime::pallets::accounts::Layer")
    }
}

impl<T: Identified> HasIdentity for Layer<T> {
    type Identity = Layer<T>;
}

/// The identity of a type with the one parameter `T`.
fn applied<T: Identified>(alloc: Global, head: &'static str) -> Result<TypeId, AllocError>
    ensures { IfOk result (λ id. term_of id ≡ applied_term head.now T.own) }
{
    let args = vec![in alloc; T::type_id(alloc)?]?;
    Ok(TypeId::new(head, Vec::new(alloc), args))
}

/// A struct of one to six fields, each of this type or of `u32`.
pub fn describe_struct(
    alloc: Global,
    name: &'static str,
    inner: &MetaType,
    random: &mut Random,
) -> Result<Type, AllocError> {
    let count = 1 + random.below(6);
    let fields = fields(alloc, inner, count)?;
    let definition = TypeDefComposite::from(fields);
    described(alloc, name, definition.into())
}

/// An enum of 18 to 23 variants, each of at most two fields.
pub fn describe_enum(
    alloc: Global,
    name: &'static str,
    inner: &MetaType,
    random: &mut Random,
) -> Result<Type, AllocError> {
    let count = 18 + random.below(6);
    let mut variants = Vec::new(alloc);
    for (index, name) in NAMES[..count as usize].iter().enumerate() {
        let fields = fields(alloc, inner, random.below(3))?;
        variants.push(Variant::new(*name, fields, (index % 256) as u8, Vec::new(alloc)))?;
    }
    let definition = TypeDefVariant::from(variants);
    described(alloc, name, definition.into())
}

/// The description with this name and definition.
fn described(alloc: Global, name: &'static str, definition: TypeDef) -> Result<Type, AllocError> {
    let path = Path::from(Items::from(vec![in alloc; "example_runtime", "accounts", name]?));
    Type::new(alloc, path, Vec::new(alloc), definition, Vec::new(alloc))
}

/// So many fields: the first of this type, the next of `u32`, and so on.
fn fields(alloc: Global, inner: &MetaType, count: u32) -> Result<Vec<Field>, AllocError> {
    let mut fields = Vec::new(alloc);
    for (index, name) in NAMES[..count.min(24) as usize].iter().enumerate() {
        let ty = if index % 2 == 0 {
            inner.try_clone(alloc)?
        } else {
            MetaType::new::<u32>(alloc)?
        };
        fields.push(Field::new(Some(*name), ty, Some("T::Balance"), Vec::new(alloc)))?;
    }
    Ok(fields)
}
