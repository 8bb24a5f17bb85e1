//! Tuples of up to 20 members: the tuple of the members that are no `PhantomData`.
ghost use Rattle.std.specs.Prelude.{◌≡◌, ◌++◌, [], ◌∷◌, IfOk, IfErr, List, Some, map};
ghost use Rattle.scale_info_identities.specs.TypeIds.{Term};
ghost use Rattle.scale_info_types.specs.MetaDescriptions.{meta_content, type_term};
ghost use Rattle.scale_info_type_info.specs.StandardTypes.{tuple_description};
ghost use Rattle.scale_info_type_info.specs.declared.type_info.InfoError.TheVariants as info_error;

use super::built_in;
use crate::type_info::{InfoError, TypeInfo};
use scale_info_type_ids::identified::{HasIdentity, Identified};
use scale_info_types::meta_type::MetaType;
use scale_info_types::ty::{Type, TypeDef, TypeDefTuple};
use std::alloc::{AllocError, Global};

/// The description of the tuple with members of these types; an Err stays as it is.
fn tuple_of(types: Result<Vec<MetaType>, AllocError>) -> Result<Type, InfoError>
    ensures ok { (members : List Term) → IfOk types (λ of. map type_term of.items ≡ members)
        → IfOk result (λ d. tuple_description members ≡ Some (meta_content d)) }
    ensures err { IfErr result (λ e. e ≡ info_error.Memory) }
{
    let types = types?;
    let alloc = *types.allocator();
    let members = TypeDefTuple::new(alloc, types)?;
    Ok(built_in(alloc, TypeDef::from(members)))
}

/// The list of no types.
fn no_types(alloc: Global) -> Result<Vec<MetaType>, AllocError>
    ensures { IfOk result (λ of. map type_term of.items ≡ []) }
{
    Ok(Vec::new(alloc))
}

/// These types and `A`.
fn with_1<A: HasIdentity>(
    types: Result<Vec<MetaType>, AllocError>,
) -> Result<Vec<MetaType>, AllocError>
    ensures { (before : List Term) → IfOk types (λ of. map type_term of.items ≡ before)
        → IfOk result (λ all. map type_term all.items ≡ before ++ A.Identity.own ∷ []) }
{
    let mut types = types?;
    let alloc = *types.allocator();
    types.push(MetaType::new::<A>(alloc)?)?;
    Ok(types)
}

/// These types and 2 more.
fn with_2<A: HasIdentity, B: HasIdentity>(
    types: Result<Vec<MetaType>, AllocError>,
) -> Result<Vec<MetaType>, AllocError>
    ensures { (before : List Term) → IfOk types (λ of. map type_term of.items ≡ before)
        → IfOk result (λ all. map type_term all.items
        ≡ before ++ A.Identity.own ∷ B.Identity.own ∷ []) }
{
    with_1::<B>(with_1::<A>(types))
}

/// These types and 4 more.
fn with_4<A: HasIdentity, B: HasIdentity, C: HasIdentity, D: HasIdentity>(
    types: Result<Vec<MetaType>, AllocError>,
) -> Result<Vec<MetaType>, AllocError>
    ensures { (before : List Term) → IfOk types (λ of. map type_term of.items ≡ before)
        → IfOk result (λ all. map type_term all.items ≡ before
        ++ A.Identity.own ∷ B.Identity.own ∷ C.Identity.own ∷ D.Identity.own ∷ []) }
{
    with_2::<C, D>(with_2::<A, B>(types))
}

/// These types and 8 more.
fn with_8<
    A: HasIdentity,
    B: HasIdentity,
    C: HasIdentity,
    D: HasIdentity,
    E: HasIdentity,
    F: HasIdentity,
    G: HasIdentity,
    H: HasIdentity,
>(types: Result<Vec<MetaType>, AllocError>) -> Result<Vec<MetaType>, AllocError>
    ensures { (before : List Term) → IfOk types (λ of. map type_term of.items ≡ before)
        → IfOk result (λ all. map type_term all.items ≡ before
        ++ A.Identity.own ∷ B.Identity.own ∷ C.Identity.own ∷ D.Identity.own ∷ E.Identity.own
        ∷ F.Identity.own ∷ G.Identity.own ∷ H.Identity.own ∷ []) }
{
    with_4::<E, F, G, H>(with_4::<A, B, C, D>(types))
}

impl TypeInfo for () {
    ghost description = { tuple_description [] };

    fn type_info(alloc: Global) -> Result<Type, InfoError> {
        tuple_of(no_types(alloc))
    }
}

impl<A: TypeInfo> TypeInfo for (A,) {
    ghost description = { tuple_description (A.Identity.own ∷ []) };

    fn type_info(alloc: Global) -> Result<Type, InfoError> {
        tuple_of(with_1::<A>(no_types(alloc)))
    }
}

impl<A: TypeInfo, B: TypeInfo> TypeInfo for (A, B) {
    ghost description = { tuple_description (A.Identity.own ∷ B.Identity.own ∷ []) };

    fn type_info(alloc: Global) -> Result<Type, InfoError> {
        tuple_of(with_2::<A, B>(no_types(alloc)))
    }
}

impl<A: TypeInfo, B: TypeInfo, C: TypeInfo> TypeInfo for (A, B, C) {
    ghost description = { tuple_description (A.Identity.own ∷ B.Identity.own ∷ C.Identity.own
        ∷ []) };

    fn type_info(alloc: Global) -> Result<Type, InfoError> {
        let types = with_2::<A, B>(no_types(alloc));
        tuple_of(with_1::<C>(types))
    }
}

impl<A: TypeInfo, B: TypeInfo, C: TypeInfo, D: TypeInfo> TypeInfo for (A, B, C, D) {
    ghost description = { tuple_description (A.Identity.own ∷ B.Identity.own ∷ C.Identity.own
        ∷ D.Identity.own ∷ []) };

    fn type_info(alloc: Global) -> Result<Type, InfoError> {
        tuple_of(with_4::<A, B, C, D>(no_types(alloc)))
    }
}

impl<A: TypeInfo, B: TypeInfo, C: TypeInfo, D: TypeInfo, E: TypeInfo> TypeInfo for (A, B, C, D, E) {
    ghost description = { tuple_description (A.Identity.own ∷ B.Identity.own ∷ C.Identity.own
        ∷ D.Identity.own ∷ E.Identity.own ∷ []) };

    fn type_info(alloc: Global) -> Result<Type, InfoError> {
        let types = with_4::<A, B, C, D>(no_types(alloc));
        tuple_of(with_1::<E>(types))
    }
}

impl<A: TypeInfo, B: TypeInfo, C: TypeInfo, D: TypeInfo, E: TypeInfo, F: TypeInfo> TypeInfo
    for (A, B, C, D, E, F) {
    ghost description = { tuple_description (A.Identity.own ∷ B.Identity.own ∷ C.Identity.own
        ∷ D.Identity.own ∷ E.Identity.own ∷ F.Identity.own ∷ []) };

    fn type_info(alloc: Global) -> Result<Type, InfoError> {
        let types = with_4::<A, B, C, D>(no_types(alloc));
        tuple_of(with_2::<E, F>(types))
    }
}

impl<
    A: TypeInfo,
    B: TypeInfo,
    C: TypeInfo,
    D: TypeInfo,
    E: TypeInfo,
    F: TypeInfo,
    G: TypeInfo,
> TypeInfo for (A, B, C, D, E, F, G) {
    ghost description = { tuple_description (A.Identity.own ∷ B.Identity.own ∷ C.Identity.own
        ∷ D.Identity.own ∷ E.Identity.own ∷ F.Identity.own ∷ G.Identity.own ∷ []) };

    fn type_info(alloc: Global) -> Result<Type, InfoError> {
        let types = with_4::<A, B, C, D>(no_types(alloc));
        let types = with_2::<E, F>(types);
        tuple_of(with_1::<G>(types))
    }
}

impl<
    A: TypeInfo,
    B: TypeInfo,
    C: TypeInfo,
    D: TypeInfo,
    E: TypeInfo,
    F: TypeInfo,
    G: TypeInfo,
    H: TypeInfo,
> TypeInfo for (A, B, C, D, E, F, G, H) {
    ghost description = { tuple_description (A.Identity.own ∷ B.Identity.own ∷ C.Identity.own
        ∷ D.Identity.own ∷ E.Identity.own ∷ F.Identity.own ∷ G.Identity.own ∷ H.Identity.own
        ∷ []) };

    fn type_info(alloc: Global) -> Result<Type, InfoError> {
        tuple_of(with_8::<A, B, C, D, E, F, G, H>(no_types(alloc)))
    }
}

impl<
    A: TypeInfo,
    B: TypeInfo,
    C: TypeInfo,
    D: TypeInfo,
    E: TypeInfo,
    F: TypeInfo,
    G: TypeInfo,
    H: TypeInfo,
    I: TypeInfo,
> TypeInfo for (A, B, C, D, E, F, G, H, I) {
    ghost description = { tuple_description (A.Identity.own ∷ B.Identity.own ∷ C.Identity.own
        ∷ D.Identity.own ∷ E.Identity.own ∷ F.Identity.own ∷ G.Identity.own ∷ H.Identity.own
        ∷ I.Identity.own ∷ []) };

    fn type_info(alloc: Global) -> Result<Type, InfoError> {
        let types = with_8::<A, B, C, D, E, F, G, H>(no_types(alloc));
        tuple_of(with_1::<I>(types))
    }
}

impl<
    A: TypeInfo,
    B: TypeInfo,
    C: TypeInfo,
    D: TypeInfo,
    E: TypeInfo,
    F: TypeInfo,
    G: TypeInfo,
    H: TypeInfo,
    I: TypeInfo,
    J: TypeInfo,
> TypeInfo for (A, B, C, D, E, F, G, H, I, J) {
    ghost description = { tuple_description (A.Identity.own ∷ B.Identity.own ∷ C.Identity.own
        ∷ D.Identity.own ∷ E.Identity.own ∷ F.Identity.own ∷ G.Identity.own ∷ H.Identity.own
        ∷ I.Identity.own ∷ J.Identity.own ∷ []) };

    fn type_info(alloc: Global) -> Result<Type, InfoError> {
        let types = with_8::<A, B, C, D, E, F, G, H>(no_types(alloc));
        tuple_of(with_2::<I, J>(types))
    }
}

impl<
    A: TypeInfo,
    B: TypeInfo,
    C: TypeInfo,
    D: TypeInfo,
    E: TypeInfo,
    F: TypeInfo,
    G: TypeInfo,
    H: TypeInfo,
    I: TypeInfo,
    J: TypeInfo,
    K: TypeInfo,
> TypeInfo for (A, B, C, D, E, F, G, H, I, J, K) {
    ghost description = { tuple_description (A.Identity.own ∷ B.Identity.own ∷ C.Identity.own
        ∷ D.Identity.own ∷ E.Identity.own ∷ F.Identity.own ∷ G.Identity.own ∷ H.Identity.own
        ∷ I.Identity.own ∷ J.Identity.own ∷ K.Identity.own ∷ []) };

    fn type_info(alloc: Global) -> Result<Type, InfoError> {
        let types = with_8::<A, B, C, D, E, F, G, H>(no_types(alloc));
        let types = with_2::<I, J>(types);
        tuple_of(with_1::<K>(types))
    }
}

impl<
    A: TypeInfo,
    B: TypeInfo,
    C: TypeInfo,
    D: TypeInfo,
    E: TypeInfo,
    F: TypeInfo,
    G: TypeInfo,
    H: TypeInfo,
    I: TypeInfo,
    J: TypeInfo,
    K: TypeInfo,
    L: TypeInfo,
> TypeInfo for (A, B, C, D, E, F, G, H, I, J, K, L) {
    ghost description = { tuple_description (A.Identity.own ∷ B.Identity.own ∷ C.Identity.own
        ∷ D.Identity.own ∷ E.Identity.own ∷ F.Identity.own ∷ G.Identity.own ∷ H.Identity.own
        ∷ I.Identity.own ∷ J.Identity.own ∷ K.Identity.own ∷ L.Identity.own ∷ []) };

    fn type_info(alloc: Global) -> Result<Type, InfoError> {
        let types = with_8::<A, B, C, D, E, F, G, H>(no_types(alloc));
        tuple_of(with_4::<I, J, K, L>(types))
    }
}

impl<
    A: TypeInfo,
    B: TypeInfo,
    C: TypeInfo,
    D: TypeInfo,
    E: TypeInfo,
    F: TypeInfo,
    G: TypeInfo,
    H: TypeInfo,
    I: TypeInfo,
    J: TypeInfo,
    K: TypeInfo,
    L: TypeInfo,
    M: TypeInfo,
> TypeInfo for (A, B, C, D, E, F, G, H, I, J, K, L, M) {
    ghost description = { tuple_description (A.Identity.own ∷ B.Identity.own ∷ C.Identity.own
        ∷ D.Identity.own ∷ E.Identity.own ∷ F.Identity.own ∷ G.Identity.own ∷ H.Identity.own
        ∷ I.Identity.own ∷ J.Identity.own ∷ K.Identity.own ∷ L.Identity.own ∷ M.Identity.own
        ∷ []) };

    fn type_info(alloc: Global) -> Result<Type, InfoError> {
        let types = with_8::<A, B, C, D, E, F, G, H>(no_types(alloc));
        let types = with_4::<I, J, K, L>(types);
        tuple_of(with_1::<M>(types))
    }
}

impl<
    A: TypeInfo,
    B: TypeInfo,
    C: TypeInfo,
    D: TypeInfo,
    E: TypeInfo,
    F: TypeInfo,
    G: TypeInfo,
    H: TypeInfo,
    I: TypeInfo,
    J: TypeInfo,
    K: TypeInfo,
    L: TypeInfo,
    M: TypeInfo,
    N: TypeInfo,
> TypeInfo for (A, B, C, D, E, F, G, H, I, J, K, L, M, N) {
    ghost description = { tuple_description (A.Identity.own ∷ B.Identity.own ∷ C.Identity.own
        ∷ D.Identity.own ∷ E.Identity.own ∷ F.Identity.own ∷ G.Identity.own ∷ H.Identity.own
        ∷ I.Identity.own ∷ J.Identity.own ∷ K.Identity.own ∷ L.Identity.own ∷ M.Identity.own
        ∷ N.Identity.own ∷ []) };

    fn type_info(alloc: Global) -> Result<Type, InfoError> {
        let types = with_8::<A, B, C, D, E, F, G, H>(no_types(alloc));
        let types = with_4::<I, J, K, L>(types);
        tuple_of(with_2::<M, N>(types))
    }
}

impl<
    A: TypeInfo,
    B: TypeInfo,
    C: TypeInfo,
    D: TypeInfo,
    E: TypeInfo,
    F: TypeInfo,
    G: TypeInfo,
    H: TypeInfo,
    I: TypeInfo,
    J: TypeInfo,
    K: TypeInfo,
    L: TypeInfo,
    M: TypeInfo,
    N: TypeInfo,
    O: TypeInfo,
> TypeInfo for (A, B, C, D, E, F, G, H, I, J, K, L, M, N, O) {
    ghost description = { tuple_description (A.Identity.own ∷ B.Identity.own ∷ C.Identity.own
        ∷ D.Identity.own ∷ E.Identity.own ∷ F.Identity.own ∷ G.Identity.own ∷ H.Identity.own
        ∷ I.Identity.own ∷ J.Identity.own ∷ K.Identity.own ∷ L.Identity.own ∷ M.Identity.own
        ∷ N.Identity.own ∷ O.Identity.own ∷ []) };

    fn type_info(alloc: Global) -> Result<Type, InfoError> {
        let types = with_8::<A, B, C, D, E, F, G, H>(no_types(alloc));
        let types = with_4::<I, J, K, L>(types);
        let types = with_2::<M, N>(types);
        tuple_of(with_1::<O>(types))
    }
}

impl<
    A: TypeInfo,
    B: TypeInfo,
    C: TypeInfo,
    D: TypeInfo,
    E: TypeInfo,
    F: TypeInfo,
    G: TypeInfo,
    H: TypeInfo,
    I: TypeInfo,
    J: TypeInfo,
    K: TypeInfo,
    L: TypeInfo,
    M: TypeInfo,
    N: TypeInfo,
    O: TypeInfo,
    P: TypeInfo,
> TypeInfo for (A, B, C, D, E, F, G, H, I, J, K, L, M, N, O, P) {
    ghost description = { tuple_description (A.Identity.own ∷ B.Identity.own ∷ C.Identity.own
        ∷ D.Identity.own ∷ E.Identity.own ∷ F.Identity.own ∷ G.Identity.own ∷ H.Identity.own
        ∷ I.Identity.own ∷ J.Identity.own ∷ K.Identity.own ∷ L.Identity.own ∷ M.Identity.own
        ∷ N.Identity.own ∷ O.Identity.own ∷ P.Identity.own ∷ []) };

    fn type_info(alloc: Global) -> Result<Type, InfoError> {
        let types = with_8::<A, B, C, D, E, F, G, H>(no_types(alloc));
        tuple_of(with_8::<I, J, K, L, M, N, O, P>(types))
    }
}

impl<
    A: TypeInfo,
    B: TypeInfo,
    C: TypeInfo,
    D: TypeInfo,
    E: TypeInfo,
    F: TypeInfo,
    G: TypeInfo,
    H: TypeInfo,
    I: TypeInfo,
    J: TypeInfo,
    K: TypeInfo,
    L: TypeInfo,
    M: TypeInfo,
    N: TypeInfo,
    O: TypeInfo,
    P: TypeInfo,
    Q: TypeInfo,
> TypeInfo for (A, B, C, D, E, F, G, H, I, J, K, L, M, N, O, P, Q) {
    ghost description = { tuple_description (A.Identity.own ∷ B.Identity.own ∷ C.Identity.own
        ∷ D.Identity.own ∷ E.Identity.own ∷ F.Identity.own ∷ G.Identity.own ∷ H.Identity.own
        ∷ I.Identity.own ∷ J.Identity.own ∷ K.Identity.own ∷ L.Identity.own ∷ M.Identity.own
        ∷ N.Identity.own ∷ O.Identity.own ∷ P.Identity.own ∷ Q.Identity.own ∷ []) };

    fn type_info(alloc: Global) -> Result<Type, InfoError> {
        let types = with_8::<A, B, C, D, E, F, G, H>(no_types(alloc));
        let types = with_8::<I, J, K, L, M, N, O, P>(types);
        tuple_of(with_1::<Q>(types))
    }
}

impl<
    A: TypeInfo,
    B: TypeInfo,
    C: TypeInfo,
    D: TypeInfo,
    E: TypeInfo,
    F: TypeInfo,
    G: TypeInfo,
    H: TypeInfo,
    I: TypeInfo,
    J: TypeInfo,
    K: TypeInfo,
    L: TypeInfo,
    M: TypeInfo,
    N: TypeInfo,
    O: TypeInfo,
    P: TypeInfo,
    Q: TypeInfo,
    R: TypeInfo,
> TypeInfo for (A, B, C, D, E, F, G, H, I, J, K, L, M, N, O, P, Q, R) {
    ghost description = { tuple_description (A.Identity.own ∷ B.Identity.own ∷ C.Identity.own
        ∷ D.Identity.own ∷ E.Identity.own ∷ F.Identity.own ∷ G.Identity.own ∷ H.Identity.own
        ∷ I.Identity.own ∷ J.Identity.own ∷ K.Identity.own ∷ L.Identity.own ∷ M.Identity.own
        ∷ N.Identity.own ∷ O.Identity.own ∷ P.Identity.own ∷ Q.Identity.own ∷ R.Identity.own
        ∷ []) };

    fn type_info(alloc: Global) -> Result<Type, InfoError> {
        let types = with_8::<A, B, C, D, E, F, G, H>(no_types(alloc));
        let types = with_8::<I, J, K, L, M, N, O, P>(types);
        tuple_of(with_2::<Q, R>(types))
    }
}

impl<
    A: TypeInfo,
    B: TypeInfo,
    C: TypeInfo,
    D: TypeInfo,
    E: TypeInfo,
    F: TypeInfo,
    G: TypeInfo,
    H: TypeInfo,
    I: TypeInfo,
    J: TypeInfo,
    K: TypeInfo,
    L: TypeInfo,
    M: TypeInfo,
    N: TypeInfo,
    O: TypeInfo,
    P: TypeInfo,
    Q: TypeInfo,
    R: TypeInfo,
    S: TypeInfo,
> TypeInfo for (A, B, C, D, E, F, G, H, I, J, K, L, M, N, O, P, Q, R, S) {
    ghost description = { tuple_description (A.Identity.own ∷ B.Identity.own ∷ C.Identity.own
        ∷ D.Identity.own ∷ E.Identity.own ∷ F.Identity.own ∷ G.Identity.own ∷ H.Identity.own
        ∷ I.Identity.own ∷ J.Identity.own ∷ K.Identity.own ∷ L.Identity.own ∷ M.Identity.own
        ∷ N.Identity.own ∷ O.Identity.own ∷ P.Identity.own ∷ Q.Identity.own ∷ R.Identity.own
        ∷ S.Identity.own ∷ []) };

    fn type_info(alloc: Global) -> Result<Type, InfoError> {
        let types = with_8::<A, B, C, D, E, F, G, H>(no_types(alloc));
        let types = with_8::<I, J, K, L, M, N, O, P>(types);
        let types = with_2::<Q, R>(types);
        tuple_of(with_1::<S>(types))
    }
}

impl<
    A: TypeInfo,
    B: TypeInfo,
    C: TypeInfo,
    D: TypeInfo,
    E: TypeInfo,
    F: TypeInfo,
    G: TypeInfo,
    H: TypeInfo,
    I: TypeInfo,
    J: TypeInfo,
    K: TypeInfo,
    L: TypeInfo,
    M: TypeInfo,
    N: TypeInfo,
    O: TypeInfo,
    P: TypeInfo,
    Q: TypeInfo,
    R: TypeInfo,
    S: TypeInfo,
    T: TypeInfo,
> TypeInfo for (A, B, C, D, E, F, G, H, I, J, K, L, M, N, O, P, Q, R, S, T) {
    ghost description = { tuple_description (A.Identity.own ∷ B.Identity.own ∷ C.Identity.own
        ∷ D.Identity.own ∷ E.Identity.own ∷ F.Identity.own ∷ G.Identity.own ∷ H.Identity.own
        ∷ I.Identity.own ∷ J.Identity.own ∷ K.Identity.own ∷ L.Identity.own ∷ M.Identity.own
        ∷ N.Identity.own ∷ O.Identity.own ∷ P.Identity.own ∷ Q.Identity.own ∷ R.Identity.own
        ∷ S.Identity.own ∷ T.Identity.own ∷ []) };

    fn type_info(alloc: Global) -> Result<Type, InfoError> {
        let types = with_8::<A, B, C, D, E, F, G, H>(no_types(alloc));
        let types = with_8::<I, J, K, L, M, N, O, P>(types);
        tuple_of(with_4::<Q, R, S, T>(types))
    }
}
