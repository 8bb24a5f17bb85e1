//! Which type a tuple is known by.
ghost use Rattle.std.specs.Prelude.{◌≡◌, [], ◌∷◌};
ghost use Rattle.scale_info_type_ids.specs.StandardTerms.{tuple_term};

use crate::identified::{HasIdentity, Identified};

/// Tuples of 3 to 20 members are known by themselves: by the own terms of their members, in order.
/// Those of fewer members stand in [`own_identities`](super::own_identities).
pub fn own_tuple_identities<
    A: Identified,
    B: Identified,
    C: Identified,
    D: Identified,
    E: Identified,
    F: Identified,
    G: Identified,
    H: Identified,
    I: Identified,
    J: Identified,
    K: Identified,
    L: Identified,
    M: Identified,
    N: Identified,
    O: Identified,
    P: Identified,
    Q: Identified,
    R: Identified,
    S: Identified,
    T: Identified,
>()
    ensures three { ⟦<<(A, B, C) as HasIdentity>::Identity as Identified>⟧.own
        ≡ tuple_term (A.own ∷ B.own ∷ C.own ∷ []) }
    ensures four { ⟦<<(A, B, C, D) as HasIdentity>::Identity as Identified>⟧.own
        ≡ tuple_term (A.own ∷ B.own ∷ C.own ∷ D.own ∷ []) }
    ensures five { ⟦<<(A, B, C, D, E) as HasIdentity>::Identity as Identified>⟧.own
        ≡ tuple_term (A.own ∷ B.own ∷ C.own ∷ D.own ∷ E.own ∷ []) }
    ensures six { ⟦<<(A, B, C, D, E, F) as HasIdentity>::Identity as Identified>⟧.own
        ≡ tuple_term (A.own ∷ B.own ∷ C.own ∷ D.own ∷ E.own ∷ F.own ∷ []) }
    ensures seven { ⟦<<(A, B, C, D, E, F, G) as HasIdentity>::Identity as Identified>⟧.own
        ≡ tuple_term (A.own ∷ B.own ∷ C.own ∷ D.own ∷ E.own ∷ F.own ∷ G.own ∷ []) }
    ensures eight { ⟦<<(A, B, C, D, E, F, G, H) as HasIdentity>::Identity as Identified>⟧.own
        ≡ tuple_term (A.own ∷ B.own ∷ C.own ∷ D.own ∷ E.own ∷ F.own ∷ G.own ∷ H.own ∷ []) }
    ensures nine { ⟦<<(A, B, C, D, E, F, G, H, I) as HasIdentity>::Identity as Identified>⟧.own
        ≡ tuple_term (A.own ∷ B.own ∷ C.own ∷ D.own ∷ E.own ∷ F.own ∷ G.own ∷ H.own ∷ I.own ∷ []) }
    ensures ten { ⟦<<(A, B, C, D, E, F, G, H, I, J) as HasIdentity>::Identity as Identified>⟧.own
        ≡ tuple_term (A.own ∷ B.own ∷ C.own ∷ D.own ∷ E.own ∷ F.own ∷ G.own ∷ H.own ∷ I.own ∷ J.own
        ∷ []) }
    ensures eleven { ⟦<<(A, B, C, D, E, F, G, H, I, J, K) as HasIdentity>::Identity as Identified>⟧.own
        ≡ tuple_term (A.own ∷ B.own ∷ C.own ∷ D.own ∷ E.own ∷ F.own ∷ G.own ∷ H.own ∷ I.own ∷ J.own
        ∷ K.own ∷ []) }
    ensures twelve { ⟦<<(A, B, C, D, E, F, G, H, I, J, K, L) as HasIdentity>::Identity as Identified>⟧.own
        ≡ tuple_term (A.own ∷ B.own ∷ C.own ∷ D.own ∷ E.own ∷ F.own ∷ G.own ∷ H.own ∷ I.own ∷ J.own
        ∷ K.own ∷ L.own ∷ []) }
    ensures thirteen { ⟦<<(A, B, C, D, E, F, G, H, I, J, K, L, M) as HasIdentity>::Identity as Identified>⟧.own
        ≡ tuple_term (A.own ∷ B.own ∷ C.own ∷ D.own ∷ E.own ∷ F.own ∷ G.own ∷ H.own ∷ I.own ∷ J.own
        ∷ K.own ∷ L.own ∷ M.own ∷ []) }
    ensures fourteen { ⟦<<(A, B, C, D, E, F, G, H, I, J, K, L, M, N) as HasIdentity>::Identity as Identified>⟧.own
        ≡ tuple_term (A.own ∷ B.own ∷ C.own ∷ D.own ∷ E.own ∷ F.own ∷ G.own ∷ H.own ∷ I.own ∷ J.own
        ∷ K.own ∷ L.own ∷ M.own ∷ N.own ∷ []) }
    ensures fifteen { ⟦<<(A, B, C, D, E, F, G, H, I, J, K, L, M, N, O) as HasIdentity>::Identity as Identified>⟧.own
        ≡ tuple_term (A.own ∷ B.own ∷ C.own ∷ D.own ∷ E.own ∷ F.own ∷ G.own ∷ H.own ∷ I.own ∷ J.own
        ∷ K.own ∷ L.own ∷ M.own ∷ N.own ∷ O.own ∷ []) }
    ensures sixteen { ⟦<<(A, B, C, D, E, F, G, H, I, J, K, L, M, N, O, P) as HasIdentity>::Identity as Identified>⟧.own
        ≡ tuple_term (A.own ∷ B.own ∷ C.own ∷ D.own ∷ E.own ∷ F.own ∷ G.own ∷ H.own ∷ I.own ∷ J.own
        ∷ K.own ∷ L.own ∷ M.own ∷ N.own ∷ O.own ∷ P.own ∷ []) }
    ensures seventeen { ⟦<<(A, B, C, D, E, F, G, H, I, J, K, L, M, N, O, P, Q) as HasIdentity>::Identity as Identified>⟧.own
        ≡ tuple_term (A.own ∷ B.own ∷ C.own ∷ D.own ∷ E.own ∷ F.own ∷ G.own ∷ H.own ∷ I.own ∷ J.own
        ∷ K.own ∷ L.own ∷ M.own ∷ N.own ∷ O.own ∷ P.own ∷ Q.own ∷ []) }
    ensures eighteen { ⟦<<(A, B, C, D, E, F, G, H, I, J, K, L, M, N, O, P, Q, R) as HasIdentity>::Identity as Identified>⟧.own
        ≡ tuple_term (A.own ∷ B.own ∷ C.own ∷ D.own ∷ E.own ∷ F.own ∷ G.own ∷ H.own ∷ I.own ∷ J.own
        ∷ K.own ∷ L.own ∷ M.own ∷ N.own ∷ O.own ∷ P.own ∷ Q.own ∷ R.own ∷ []) }
    ensures nineteen { ⟦<<(A, B, C, D, E, F, G, H, I, J, K, L, M, N, O, P, Q, R, S) as HasIdentity>::Identity as Identified>⟧.own
        ≡ tuple_term (A.own ∷ B.own ∷ C.own ∷ D.own ∷ E.own ∷ F.own ∷ G.own ∷ H.own ∷ I.own ∷ J.own
        ∷ K.own ∷ L.own ∷ M.own ∷ N.own ∷ O.own ∷ P.own ∷ Q.own ∷ R.own ∷ S.own ∷ []) }
    ensures twenty { ⟦<<(A, B, C, D, E, F, G, H, I, J, K, L, M, N, O, P, Q, R, S, T) as HasIdentity>::Identity as Identified>⟧.own
        ≡ tuple_term (A.own ∷ B.own ∷ C.own ∷ D.own ∷ E.own ∷ F.own ∷ G.own ∷ H.own ∷ I.own ∷ J.own
        ∷ K.own ∷ L.own ∷ M.own ∷ N.own ∷ O.own ∷ P.own ∷ Q.own ∷ R.own ∷ S.own ∷ T.own ∷ []) }
{}
