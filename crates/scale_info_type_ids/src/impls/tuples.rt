//! Tuples of up to 20 members.
ghost use Rattle.std.specs.Prelude.{◌≡◌, ◌++◌, [], ◌∷◌, IfOk, map};
ghost use Rattle.scale_info_identities.specs.TypeIds.{term_of};
ghost use Rattle.scale_info_type_ids.specs.StandardTerms.{tuple_term};

use crate::identified::{HasIdentity, Identified};
use scale_info_identities::type_id::TypeId;
use std::alloc::{AllocError, Global};

/// The identity of the tuple whose members have these identities.
fn tuple_id(members: Vec<TypeId>) -> TypeId
    ensures { term_of result ≡ tuple_term (map term_of members.items) }
{
    let alloc = *members.allocator();
    TypeId::new("tuple", Vec::new(alloc), members)
}

/// These identities and that of `A`.
fn with_1<A: Identified>(mut ids: Vec<TypeId>) -> Result<Vec<TypeId>, AllocError>
    ensures { IfOk result (λ all. map term_of all.items ≡ map term_of ids.items ++ A.own ∷ []) }
{
    let alloc = *ids.allocator();
    ids.push(A::type_id(alloc)?)?;
    Ok(ids)
}

/// These identities and those of 2 types.
fn with_2<A: Identified, B: Identified>(ids: Vec<TypeId>) -> Result<Vec<TypeId>, AllocError>
    ensures { IfOk result (λ all. map term_of all.items
        ≡ map term_of ids.items ++ A.own ∷ B.own ∷ []) }
{
    with_1::<B>(with_1::<A>(ids)?)
}

/// These identities and those of 4 types.
fn with_4<A: Identified, B: Identified, C: Identified, D: Identified>(
    ids: Vec<TypeId>,
) -> Result<Vec<TypeId>, AllocError>
    ensures { IfOk result (λ all. map term_of all.items
        ≡ map term_of ids.items ++ A.own ∷ B.own ∷ C.own ∷ D.own ∷ []) }
{
    with_2::<C, D>(with_2::<A, B>(ids)?)
}

/// These identities and those of 8 types.
fn with_8<
    A: Identified,
    B: Identified,
    C: Identified,
    D: Identified,
    E: Identified,
    F: Identified,
    G: Identified,
    H: Identified,
>(ids: Vec<TypeId>) -> Result<Vec<TypeId>, AllocError>
    ensures { IfOk result (λ all. map term_of all.items
        ≡ map term_of ids.items ++ A.own ∷ B.own ∷ C.own ∷ D.own ∷ E.own ∷ F.own ∷ G.own ∷ H.own
        ∷ []) }
{
    with_4::<E, F, G, H>(with_4::<A, B, C, D>(ids)?)
}

impl Identified for () {
    ghost own = { tuple_term [] };

    fn type_id(alloc: Global) -> Result<TypeId, AllocError> {
        Ok(tuple_id(Vec::new(alloc)))
    }
}

impl HasIdentity for () {
    type Identity = ();
}

impl<A: Identified> Identified for (A,) {
    ghost own = { tuple_term (A.own ∷ []) };

    fn type_id(alloc: Global) -> Result<TypeId, AllocError> {
        let ids = with_1::<A>(Vec::new(alloc))?;
        Ok(tuple_id(ids))
    }
}

impl<A: Identified> HasIdentity for (A,) {
    type Identity = (A,);
}

impl<A: Identified, B: Identified> Identified for (A, B) {
    ghost own = { tuple_term (A.own ∷ B.own ∷ []) };

    fn type_id(alloc: Global) -> Result<TypeId, AllocError> {
        let ids = with_2::<A, B>(Vec::new(alloc))?;
        Ok(tuple_id(ids))
    }
}

impl<A: Identified, B: Identified> HasIdentity for (A, B) {
    type Identity = (A, B);
}

impl<A: Identified, B: Identified, C: Identified> Identified for (A, B, C) {
    ghost own = { tuple_term (A.own ∷ B.own ∷ C.own ∷ []) };

    fn type_id(alloc: Global) -> Result<TypeId, AllocError> {
        let ids = with_2::<A, B>(Vec::new(alloc))?;
        let ids = with_1::<C>(ids)?;
        Ok(tuple_id(ids))
    }
}

impl<A: Identified, B: Identified, C: Identified> HasIdentity for (A, B, C) {
    type Identity = (A, B, C);
}

impl<A: Identified, B: Identified, C: Identified, D: Identified> Identified for (A, B, C, D) {
    ghost own = { tuple_term (A.own ∷ B.own ∷ C.own ∷ D.own ∷ []) };

    fn type_id(alloc: Global) -> Result<TypeId, AllocError> {
        let ids = with_4::<A, B, C, D>(Vec::new(alloc))?;
        Ok(tuple_id(ids))
    }
}

impl<A: Identified, B: Identified, C: Identified, D: Identified> HasIdentity for (A, B, C, D) {
    type Identity = (A, B, C, D);
}

impl<A: Identified, B: Identified, C: Identified, D: Identified, E: Identified> Identified
    for (A, B, C, D, E) {
    ghost own = { tuple_term (A.own ∷ B.own ∷ C.own ∷ D.own ∷ E.own ∷ []) };

    fn type_id(alloc: Global) -> Result<TypeId, AllocError> {
        let ids = with_4::<A, B, C, D>(Vec::new(alloc))?;
        let ids = with_1::<E>(ids)?;
        Ok(tuple_id(ids))
    }
}

impl<A: Identified, B: Identified, C: Identified, D: Identified, E: Identified> HasIdentity
    for (A, B, C, D, E) {
    type Identity = (A, B, C, D, E);
}

impl<
    A: Identified,
    B: Identified,
    C: Identified,
    D: Identified,
    E: Identified,
    F: Identified,
> Identified for (A, B, C, D, E, F) {
    ghost own = { tuple_term (A.own ∷ B.own ∷ C.own ∷ D.own ∷ E.own ∷ F.own ∷ []) };

    fn type_id(alloc: Global) -> Result<TypeId, AllocError> {
        let ids = with_4::<A, B, C, D>(Vec::new(alloc))?;
        let ids = with_2::<E, F>(ids)?;
        Ok(tuple_id(ids))
    }
}

impl<
    A: Identified,
    B: Identified,
    C: Identified,
    D: Identified,
    E: Identified,
    F: Identified,
> HasIdentity for (A, B, C, D, E, F) {
    type Identity = (A, B, C, D, E, F);
}

impl<
    A: Identified,
    B: Identified,
    C: Identified,
    D: Identified,
    E: Identified,
    F: Identified,
    G: Identified,
> Identified for (A, B, C, D, E, F, G) {
    ghost own = { tuple_term (A.own ∷ B.own ∷ C.own ∷ D.own ∷ E.own ∷ F.own ∷ G.own ∷ []) };

    fn type_id(alloc: Global) -> Result<TypeId, AllocError> {
        let ids = with_4::<A, B, C, D>(Vec::new(alloc))?;
        let ids = with_2::<E, F>(ids)?;
        let ids = with_1::<G>(ids)?;
        Ok(tuple_id(ids))
    }
}

impl<
    A: Identified,
    B: Identified,
    C: Identified,
    D: Identified,
    E: Identified,
    F: Identified,
    G: Identified,
> HasIdentity for (A, B, C, D, E, F, G) {
    type Identity = (A, B, C, D, E, F, G);
}

impl<
    A: Identified,
    B: Identified,
    C: Identified,
    D: Identified,
    E: Identified,
    F: Identified,
    G: Identified,
    H: Identified,
> Identified for (A, B, C, D, E, F, G, H) {
    ghost own = { tuple_term (A.own ∷ B.own ∷ C.own ∷ D.own ∷ E.own ∷ F.own ∷ G.own ∷ H.own ∷ []) };

    fn type_id(alloc: Global) -> Result<TypeId, AllocError> {
        let ids = with_8::<A, B, C, D, E, F, G, H>(Vec::new(alloc))?;
        Ok(tuple_id(ids))
    }
}

impl<
    A: Identified,
    B: Identified,
    C: Identified,
    D: Identified,
    E: Identified,
    F: Identified,
    G: Identified,
    H: Identified,
> HasIdentity for (A, B, C, D, E, F, G, H) {
    type Identity = (A, B, C, D, E, F, G, H);
}

impl<
    A: Identified,
    B: Identified,
    C: Identified,
    D: Identified,
    E: Identified,
    F: Identified,
    G: Identified,
    H: Identified,
    I: Identified,
> Identified for (A, B, C, D, E, F, G, H, I) {
    ghost own = { tuple_term (A.own ∷ B.own ∷ C.own ∷ D.own ∷ E.own ∷ F.own ∷ G.own ∷ H.own
        ∷ I.own ∷ []) };

    fn type_id(alloc: Global) -> Result<TypeId, AllocError> {
        let ids = with_8::<A, B, C, D, E, F, G, H>(Vec::new(alloc))?;
        let ids = with_1::<I>(ids)?;
        Ok(tuple_id(ids))
    }
}

impl<
    A: Identified,
    B: Identified,
    C: Identified,
    D: Identified,
    E: Identified,
    F: Identified,
    G: Identified,
    H: Identified,
    I: Identified,
> HasIdentity for (A, B, C, D, E, F, G, H, I) {
    type Identity = (A, B, C, D, E, F, G, H, I);
}

impl<
    A: Identified,
    B: Identified,
    C: Identified,
    D: Identified,
    E: Identified,
    F: Identified,
    G: Identified,
    H: Identified,
    I: Identified,
    J: Identified,
> Identified for (A, B, C, D, E, F, G, H, I, J) {
    ghost own = { tuple_term (A.own ∷ B.own ∷ C.own ∷ D.own ∷ E.own ∷ F.own ∷ G.own ∷ H.own
        ∷ I.own ∷ J.own ∷ []) };

    fn type_id(alloc: Global) -> Result<TypeId, AllocError> {
        let ids = with_8::<A, B, C, D, E, F, G, H>(Vec::new(alloc))?;
        let ids = with_2::<I, J>(ids)?;
        Ok(tuple_id(ids))
    }
}

impl<
    A: Identified,
    B: Identified,
    C: Identified,
    D: Identified,
    E: Identified,
    F: Identified,
    G: Identified,
    H: Identified,
    I: Identified,
    J: Identified,
> HasIdentity for (A, B, C, D, E, F, G, H, I, J) {
    type Identity = (A, B, C, D, E, F, G, H, I, J);
}

impl<
    A: Identified,
    B: Identified,
    C: Identified,
    D: Identified,
    E: Identified,
    F: Identified,
    G: Identified,
    H: Identified,
    I: Identified,
    J: Identified,
    K: Identified,
> Identified for (A, B, C, D, E, F, G, H, I, J, K) {
    ghost own = { tuple_term (A.own ∷ B.own ∷ C.own ∷ D.own ∷ E.own ∷ F.own ∷ G.own ∷ H.own
        ∷ I.own ∷ J.own ∷ K.own ∷ []) };

    fn type_id(alloc: Global) -> Result<TypeId, AllocError> {
        let ids = with_8::<A, B, C, D, E, F, G, H>(Vec::new(alloc))?;
        let ids = with_2::<I, J>(ids)?;
        let ids = with_1::<K>(ids)?;
        Ok(tuple_id(ids))
    }
}

impl<
    A: Identified,
    B: Identified,
    C: Identified,
    D: Identified,
    E: Identified,
    F: Identified,
    G: Identified,
    H: Identified,
    I: Identified,
    J: Identified,
    K: Identified,
> HasIdentity for (A, B, C, D, E, F, G, H, I, J, K) {
    type Identity = (A, B, C, D, E, F, G, H, I, J, K);
}

impl<
    A: Identified,
    B: Identified,
    C: Identified,
    D: Identified,
    E: Identified,
    F: Identified,
    G: Identified,
    H: Identified,
    I: Identified,
    J: Identified,
    K: Identified,
    L: Identified,
> Identified for (A, B, C, D, E, F, G, H, I, J, K, L) {
    ghost own = { tuple_term (A.own ∷ B.own ∷ C.own ∷ D.own ∷ E.own ∷ F.own ∷ G.own ∷ H.own
        ∷ I.own ∷ J.own ∷ K.own ∷ L.own ∷ []) };

    fn type_id(alloc: Global) -> Result<TypeId, AllocError> {
        let ids = with_8::<A, B, C, D, E, F, G, H>(Vec::new(alloc))?;
        let ids = with_4::<I, J, K, L>(ids)?;
        Ok(tuple_id(ids))
    }
}

impl<
    A: Identified,
    B: Identified,
    C: Identified,
    D: Identified,
    E: Identified,
    F: Identified,
    G: Identified,
    H: Identified,
    I: Identified,
    J: Identified,
    K: Identified,
    L: Identified,
> HasIdentity for (A, B, C, D, E, F, G, H, I, J, K, L) {
    type Identity = (A, B, C, D, E, F, G, H, I, J, K, L);
}

impl<
    A: Identified,
    B: Identified,
    C: Identified,
    D: Identified,
    E: Identified,
    F: Identified,
    G: Identified,
    H: Identified,
    I: Identified,
    J: Identified,
    K: Identified,
    L: Identified,
    M: Identified,
> Identified for (A, B, C, D, E, F, G, H, I, J, K, L, M) {
    ghost own = { tuple_term (A.own ∷ B.own ∷ C.own ∷ D.own ∷ E.own ∷ F.own ∷ G.own ∷ H.own
        ∷ I.own ∷ J.own ∷ K.own ∷ L.own ∷ M.own ∷ []) };

    fn type_id(alloc: Global) -> Result<TypeId, AllocError> {
        let ids = with_8::<A, B, C, D, E, F, G, H>(Vec::new(alloc))?;
        let ids = with_4::<I, J, K, L>(ids)?;
        let ids = with_1::<M>(ids)?;
        Ok(tuple_id(ids))
    }
}

impl<
    A: Identified,
    B: Identified,
    C: Identified,
    D: Identified,
    E: Identified,
    F: Identified,
    G: Identified,
    H: Identified,
    I: Identified,
    J: Identified,
    K: Identified,
    L: Identified,
    M: Identified,
> HasIdentity for (A, B, C, D, E, F, G, H, I, J, K, L, M) {
    type Identity = (A, B, C, D, E, F, G, H, I, J, K, L, M);
}

impl<
    A: Identified,
    B: Identified,
    C: Identified,
    D: Identified,
    E: Identified,
    F: Identified,
    G: Identified,
    H: Identified,
    I: Identified,
    J: Identified,
    K: Identified,
    L: Identified,
    M: Identified,
    N: Identified,
> Identified for (A, B, C, D, E, F, G, H, I, J, K, L, M, N) {
    ghost own = { tuple_term (A.own ∷ B.own ∷ C.own ∷ D.own ∷ E.own ∷ F.own ∷ G.own ∷ H.own
        ∷ I.own ∷ J.own ∷ K.own ∷ L.own ∷ M.own ∷ N.own ∷ []) };

    fn type_id(alloc: Global) -> Result<TypeId, AllocError> {
        let ids = with_8::<A, B, C, D, E, F, G, H>(Vec::new(alloc))?;
        let ids = with_4::<I, J, K, L>(ids)?;
        let ids = with_2::<M, N>(ids)?;
        Ok(tuple_id(ids))
    }
}

impl<
    A: Identified,
    B: Identified,
    C: Identified,
    D: Identified,
    E: Identified,
    F: Identified,
    G: Identified,
    H: Identified,
    I: Identified,
    J: Identified,
    K: Identified,
    L: Identified,
    M: Identified,
    N: Identified,
> HasIdentity for (A, B, C, D, E, F, G, H, I, J, K, L, M, N) {
    type Identity = (A, B, C, D, E, F, G, H, I, J, K, L, M, N);
}

impl<
    A: Identified,
    B: Identified,
    C: Identified,
    D: Identified,
    E: Identified,
    F: Identified,
    G: Identified,
    H: Identified,
    I: Identified,
    J: Identified,
    K: Identified,
    L: Identified,
    M: Identified,
    N: Identified,
    O: Identified,
> Identified for (A, B, C, D, E, F, G, H, I, J, K, L, M, N, O) {
    ghost own = { tuple_term (A.own ∷ B.own ∷ C.own ∷ D.own ∷ E.own ∷ F.own ∷ G.own ∷ H.own
        ∷ I.own ∷ J.own ∷ K.own ∷ L.own ∷ M.own ∷ N.own ∷ O.own ∷ []) };

    fn type_id(alloc: Global) -> Result<TypeId, AllocError> {
        let ids = with_8::<A, B, C, D, E, F, G, H>(Vec::new(alloc))?;
        let ids = with_4::<I, J, K, L>(ids)?;
        let ids = with_2::<M, N>(ids)?;
        let ids = with_1::<O>(ids)?;
        Ok(tuple_id(ids))
    }
}

impl<
    A: Identified,
    B: Identified,
    C: Identified,
    D: Identified,
    E: Identified,
    F: Identified,
    G: Identified,
    H: Identified,
    I: Identified,
    J: Identified,
    K: Identified,
    L: Identified,
    M: Identified,
    N: Identified,
    O: Identified,
> HasIdentity for (A, B, C, D, E, F, G, H, I, J, K, L, M, N, O) {
    type Identity = (A, B, C, D, E, F, G, H, I, J, K, L, M, N, O);
}

impl<
    A: Identified,
    B: Identified,
    C: Identified,
    D: Identified,
    E: Identified,
    F: Identified,
    G: Identified,
    H: Identified,
    I: Identified,
    J: Identified,
    K: Identified,
    L: Identified,
    M: Identified,
    N: Identified,
    O: Identified,
    P: Identified,
> Identified for (A, B, C, D, E, F, G, H, I, J, K, L, M, N, O, P) {
    ghost own = { tuple_term (A.own ∷ B.own ∷ C.own ∷ D.own ∷ E.own ∷ F.own ∷ G.own ∷ H.own
        ∷ I.own ∷ J.own ∷ K.own ∷ L.own ∷ M.own ∷ N.own ∷ O.own ∷ P.own ∷ []) };

    fn type_id(alloc: Global) -> Result<TypeId, AllocError> {
        let ids = with_8::<A, B, C, D, E, F, G, H>(Vec::new(alloc))?;
        let ids = with_8::<I, J, K, L, M, N, O, P>(ids)?;
        Ok(tuple_id(ids))
    }
}

impl<
    A: Identified,
    B: Identified,
    C: Identified,
    D: Identified,
    E: Identified,
    F: Identified,
    G: Identified,
    H: Identified,
    I: Identified,
    J: Identified,
    K: Identified,
    L: Identified,
    M: Identified,
    N: Identified,
    O: Identified,
    P: Identified,
> HasIdentity for (A, B, C, D, E, F, G, H, I, J, K, L, M, N, O, P) {
    type Identity = (A, B, C, D, E, F, G, H, I, J, K, L, M, N, O, P);
}

impl<
    A: Identified,
    B: Identified,
    C: Identified,
    D: Identified,
    E: Identified,
    F: Identified,
    G: Identified,
    H: Identified,
    I: Identified,
    J: Identified,
    K: Identified,
    L: Identified,
    M: Identified,
    N: Identified,
    O: Identified,
    P: Identified,
    Q: Identified,
> Identified for (A, B, C, D, E, F, G, H, I, J, K, L, M, N, O, P, Q) {
    ghost own = { tuple_term (A.own ∷ B.own ∷ C.own ∷ D.own ∷ E.own ∷ F.own ∷ G.own ∷ H.own
        ∷ I.own ∷ J.own ∷ K.own ∷ L.own ∷ M.own ∷ N.own ∷ O.own ∷ P.own ∷ Q.own ∷ []) };

    fn type_id(alloc: Global) -> Result<TypeId, AllocError> {
        let ids = with_8::<A, B, C, D, E, F, G, H>(Vec::new(alloc))?;
        let ids = with_8::<I, J, K, L, M, N, O, P>(ids)?;
        let ids = with_1::<Q>(ids)?;
        Ok(tuple_id(ids))
    }
}

impl<
    A: Identified,
    B: Identified,
    C: Identified,
    D: Identified,
    E: Identified,
    F: Identified,
    G: Identified,
    H: Identified,
    I: Identified,
    J: Identified,
    K: Identified,
    L: Identified,
    M: Identified,
    N: Identified,
    O: Identified,
    P: Identified,
    Q: Identified,
> HasIdentity for (A, B, C, D, E, F, G, H, I, J, K, L, M, N, O, P, Q) {
    type Identity = (A, B, C, D, E, F, G, H, I, J, K, L, M, N, O, P, Q);
}

impl<
    A: Identified,
    B: Identified,
    C: Identified,
    D: Identified,
    E: Identified,
    F: Identified,
    G: Identified,
    H: Identified,
    I: Identified,
    J: Identified,
    K: Identified,
    L: Identified,
    M: Identified,
    N: Identified,
    O: Identified,
    P: Identified,
    Q: Identified,
    R: Identified,
> Identified for (A, B, C, D, E, F, G, H, I, J, K, L, M, N, O, P, Q, R) {
    ghost own = { tuple_term (A.own ∷ B.own ∷ C.own ∷ D.own ∷ E.own ∷ F.own ∷ G.own ∷ H.own
        ∷ I.own ∷ J.own ∷ K.own ∷ L.own ∷ M.own ∷ N.own ∷ O.own ∷ P.own ∷ Q.own ∷ R.own ∷ []) };

    fn type_id(alloc: Global) -> Result<TypeId, AllocError> {
        let ids = with_8::<A, B, C, D, E, F, G, H>(Vec::new(alloc))?;
        let ids = with_8::<I, J, K, L, M, N, O, P>(ids)?;
        let ids = with_2::<Q, R>(ids)?;
        Ok(tuple_id(ids))
    }
}

impl<
    A: Identified,
    B: Identified,
    C: Identified,
    D: Identified,
    E: Identified,
    F: Identified,
    G: Identified,
    H: Identified,
    I: Identified,
    J: Identified,
    K: Identified,
    L: Identified,
    M: Identified,
    N: Identified,
    O: Identified,
    P: Identified,
    Q: Identified,
    R: Identified,
> HasIdentity for (A, B, C, D, E, F, G, H, I, J, K, L, M, N, O, P, Q, R) {
    type Identity = (A, B, C, D, E, F, G, H, I, J, K, L, M, N, O, P, Q, R);
}

impl<
    A: Identified,
    B: Identified,
    C: Identified,
    D: Identified,
    E: Identified,
    F: Identified,
    G: Identified,
    H: Identified,
    I: Identified,
    J: Identified,
    K: Identified,
    L: Identified,
    M: Identified,
    N: Identified,
    O: Identified,
    P: Identified,
    Q: Identified,
    R: Identified,
    S: Identified,
> Identified for (A, B, C, D, E, F, G, H, I, J, K, L, M, N, O, P, Q, R, S) {
    ghost own = { tuple_term (A.own ∷ B.own ∷ C.own ∷ D.own ∷ E.own ∷ F.own ∷ G.own ∷ H.own
        ∷ I.own ∷ J.own ∷ K.own ∷ L.own ∷ M.own ∷ N.own ∷ O.own ∷ P.own ∷ Q.own ∷ R.own ∷ S.own
        ∷ []) };

    fn type_id(alloc: Global) -> Result<TypeId, AllocError> {
        let ids = with_8::<A, B, C, D, E, F, G, H>(Vec::new(alloc))?;
        let ids = with_8::<I, J, K, L, M, N, O, P>(ids)?;
        let ids = with_2::<Q, R>(ids)?;
        let ids = with_1::<S>(ids)?;
        Ok(tuple_id(ids))
    }
}

impl<
    A: Identified,
    B: Identified,
    C: Identified,
    D: Identified,
    E: Identified,
    F: Identified,
    G: Identified,
    H: Identified,
    I: Identified,
    J: Identified,
    K: Identified,
    L: Identified,
    M: Identified,
    N: Identified,
    O: Identified,
    P: Identified,
    Q: Identified,
    R: Identified,
    S: Identified,
> HasIdentity for (A, B, C, D, E, F, G, H, I, J, K, L, M, N, O, P, Q, R, S) {
    type Identity = (A, B, C, D, E, F, G, H, I, J, K, L, M, N, O, P, Q, R, S);
}

impl<
    A: Identified,
    B: Identified,
    C: Identified,
    D: Identified,
    E: Identified,
    F: Identified,
    G: Identified,
    H: Identified,
    I: Identified,
    J: Identified,
    K: Identified,
    L: Identified,
    M: Identified,
    N: Identified,
    O: Identified,
    P: Identified,
    Q: Identified,
    R: Identified,
    S: Identified,
    T: Identified,
> Identified for (A, B, C, D, E, F, G, H, I, J, K, L, M, N, O, P, Q, R, S, T) {
    ghost own = { tuple_term (A.own ∷ B.own ∷ C.own ∷ D.own ∷ E.own ∷ F.own ∷ G.own ∷ H.own
        ∷ I.own ∷ J.own ∷ K.own ∷ L.own ∷ M.own ∷ N.own ∷ O.own ∷ P.own ∷ Q.own ∷ R.own ∷ S.own
        ∷ T.own ∷ []) };

    fn type_id(alloc: Global) -> Result<TypeId, AllocError> {
        let ids = with_8::<A, B, C, D, E, F, G, H>(Vec::new(alloc))?;
        let ids = with_8::<I, J, K, L, M, N, O, P>(ids)?;
        let ids = with_4::<Q, R, S, T>(ids)?;
        Ok(tuple_id(ids))
    }
}

impl<
    A: Identified,
    B: Identified,
    C: Identified,
    D: Identified,
    E: Identified,
    F: Identified,
    G: Identified,
    H: Identified,
    I: Identified,
    J: Identified,
    K: Identified,
    L: Identified,
    M: Identified,
    N: Identified,
    O: Identified,
    P: Identified,
    Q: Identified,
    R: Identified,
    S: Identified,
    T: Identified,
> HasIdentity for (A, B, C, D, E, F, G, H, I, J, K, L, M, N, O, P, Q, R, S, T) {
    type Identity = (A, B, C, D, E, F, G, H, I, J, K, L, M, N, O, P, Q, R, S, T);
}
