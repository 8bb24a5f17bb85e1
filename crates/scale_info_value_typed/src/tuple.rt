//! Tuples of up to 12 members.
ghost use Rattle.std.specs.Prelude.{◌∷◌, []};
ghost use Rattle.scale_info_value_typed.specs.Meanings.{no_members, member_and, tuple};
ghost use Rattle.scale_info_value_typed.specs.Places.{part_at};
ghost use Rattle.scale_info_value_typed.specs.StandingValues.{tuple_at};

use crate::decode::DecodeAs;
use crate::encode::EncodeAs;
use crate::error::ConvertError;
use crate::members::{tuple_of, tuple_value};
use crate::place::Place;
use crate::shown::Shown;
use scale_info_value::definition::Definitions;
use scale_info_value::value::Value;
use scale_info_value_borrowed::borrowed::ValueRef;
use std::alloc::Global;

impl Shown for () {
    ghost Seen = { Unit {0} };

    ghost seen = { λ none. none };

    ghost meant = { tuple no_members };
}

impl DecodeAs for () {
    fn from_value(alloc: Global, value: &ValueRef<'_, '_>) -> Result<(), ConvertError> {
        tuple_of(alloc, value)
    }
}

impl EncodeAs for () {
    ghost value_at = { λ _ _ _. tuple_at [] };

    fn to_value<T: Definitions>(
        &self,
        alloc: Global,
        table: &T,
        place: Place,
    ) -> Result<Value, ConvertError> {
        tuple_value(alloc, table, place, &())
    }
}

impl<A: Shown> Shown for (A,) {
    ghost Seen = { A.Seen × Unit {0} };

    ghost seen = { λ t. (A.seen t.0, tt) };

    ghost meant = { tuple (member_and A.meant no_members) };
}

impl<A: DecodeAs> DecodeAs for (A,) {
    fn from_value(alloc: Global, value: &ValueRef<'_, '_>) -> Result<(A,), ConvertError> {
        let (a, ()) = tuple_of::<(A, ())>(alloc, value)?;
        Ok((a,))
    }
}

impl<A: EncodeAs> EncodeAs for (A,) {
    ghost value_at = { λ table place t. tuple_at (A.value_at table (part_at table place 0) t.0 ∷
        []) };

    fn to_value<T: Definitions>(
        &self,
        alloc: Global,
        table: &T,
        place: Place,
    ) -> Result<Value, ConvertError> {
        tuple_value(alloc, table, place, &(&self.0, ()))
    }
}

impl<A: Shown, B: Shown> Shown for (A, B) {
    ghost Seen = { A.Seen × (B.Seen × Unit {0}) };

    ghost seen = { λ t. (A.seen t.0, (B.seen t.1, tt)) };

    ghost meant = { tuple (member_and A.meant (member_and B.meant no_members)) };
}

impl<A: DecodeAs, B: DecodeAs> DecodeAs for (A, B) {
    fn from_value(alloc: Global, value: &ValueRef<'_, '_>) -> Result<(A, B), ConvertError> {
        let (a, (b, ())) = tuple_of::<(A, (B, ()))>(alloc, value)?;
        Ok((a, b))
    }
}

impl<A: EncodeAs, B: EncodeAs> EncodeAs for (A, B) {
    ghost value_at = { λ table place t. tuple_at (A.value_at table (part_at table place 0) t.0 ∷
        B.value_at table (part_at table place 1) t.1 ∷ []) };

    fn to_value<T: Definitions>(
        &self,
        alloc: Global,
        table: &T,
        place: Place,
    ) -> Result<Value, ConvertError> {
        tuple_value(alloc, table, place, &(&self.0, (&self.1, ())))
    }
}

impl<A: Shown, B: Shown, C: Shown> Shown for (A, B, C) {
    ghost Seen = { A.Seen × (B.Seen × (C.Seen × Unit {0})) };

    ghost seen = { λ t. (A.seen t.0, (B.seen t.1, (C.seen t.2, tt))) };

    ghost meant = { tuple (member_and A.meant (member_and B.meant (member_and C.meant
        no_members))) };
}

impl<A: DecodeAs, B: DecodeAs, C: DecodeAs> DecodeAs for (A, B, C) {
    fn from_value(alloc: Global, value: &ValueRef<'_, '_>) -> Result<(A, B, C), ConvertError> {
        let (a, (b, (c, ()))) = tuple_of::<(A, (B, (C, ())))>(alloc, value)?;
        Ok((a, b, c))
    }
}

impl<A: EncodeAs, B: EncodeAs, C: EncodeAs> EncodeAs for (A, B, C) {
    ghost value_at = { λ table place t. tuple_at (A.value_at table (part_at table place 0) t.0 ∷
        B.value_at table (part_at table place 1) t.1 ∷ C.value_at table (part_at table place 2)
        t.2 ∷ []) };

    fn to_value<T: Definitions>(
        &self,
        alloc: Global,
        table: &T,
        place: Place,
    ) -> Result<Value, ConvertError> {
        tuple_value(alloc, table, place, &(&self.0, (&self.1, (&self.2, ()))))
    }
}

impl<A: Shown, B: Shown, C: Shown, D: Shown> Shown for (A, B, C, D) {
    ghost Seen = { A.Seen × (B.Seen × (C.Seen × (D.Seen × Unit {0}))) };

    ghost seen = { λ t. (A.seen t.0, (B.seen t.1, (C.seen t.2, (D.seen t.3, tt)))) };

    ghost meant = { tuple (member_and A.meant (member_and B.meant (member_and C.meant (member_and
        D.meant no_members)))) };
}

impl<A: DecodeAs, B: DecodeAs, C: DecodeAs, D: DecodeAs> DecodeAs for (A, B, C, D) {
    fn from_value(alloc: Global, value: &ValueRef<'_, '_>) -> Result<(A, B, C, D), ConvertError> {
        let (a, (b, (c, (d, ())))) = tuple_of::<(A, (B, (C, (D, ()))))>(alloc, value)?;
        Ok((a, b, c, d))
    }
}

impl<A: EncodeAs, B: EncodeAs, C: EncodeAs, D: EncodeAs> EncodeAs for (A, B, C, D) {
    ghost value_at = { λ table place t. tuple_at (A.value_at table (part_at table place 0) t.0 ∷
        B.value_at table (part_at table place 1) t.1 ∷ C.value_at table (part_at table place 2)
        t.2 ∷ D.value_at table (part_at table place 3) t.3 ∷ []) };

    fn to_value<T: Definitions>(
        &self,
        alloc: Global,
        table: &T,
        place: Place,
    ) -> Result<Value, ConvertError> {
        tuple_value(
            alloc,
            table,
            place,
            &(&self.0, (&self.1, (&self.2, (&self.3, ())))),
        )
    }
}

impl<A: Shown, B: Shown, C: Shown, D: Shown, E: Shown> Shown for (A, B, C, D, E) {
    ghost Seen = { A.Seen × (B.Seen × (C.Seen × (D.Seen × (E.Seen × Unit {0})))) };

    ghost seen = { λ t. (A.seen t.0, (B.seen t.1, (C.seen t.2, (D.seen t.3, (E.seen t.4, tt))))) };

    ghost meant = { tuple (member_and A.meant (member_and B.meant (member_and C.meant (member_and
        D.meant (member_and E.meant no_members))))) };
}

impl<A: DecodeAs, B: DecodeAs, C: DecodeAs, D: DecodeAs, E: DecodeAs> DecodeAs for (A, B, C, D, E) {
    fn from_value(
        alloc: Global,
        value: &ValueRef<'_, '_>,
    ) -> Result<(A, B, C, D, E), ConvertError> {
        let (a, (b, (c, (d, (e, ()))))) = tuple_of::<(A, (B, (C, (D, (E, ())))))>(alloc, value)?;
        Ok((a, b, c, d, e))
    }
}

impl<A: EncodeAs, B: EncodeAs, C: EncodeAs, D: EncodeAs, E: EncodeAs> EncodeAs for (A, B, C, D, E) {
    ghost value_at = { λ table place t. tuple_at (A.value_at table (part_at table place 0) t.0 ∷
        B.value_at table (part_at table place 1) t.1 ∷ C.value_at table (part_at table place 2)
        t.2 ∷ D.value_at table (part_at table place 3) t.3 ∷ E.value_at table (part_at table place
        4) t.4 ∷ []) };

    fn to_value<T: Definitions>(
        &self,
        alloc: Global,
        table: &T,
        place: Place,
    ) -> Result<Value, ConvertError> {
        tuple_value(
            alloc,
            table,
            place,
            &(&self.0, (&self.1, (&self.2, (&self.3, (&self.4, ()))))),
        )
    }
}

impl<A: Shown, B: Shown, C: Shown, D: Shown, E: Shown, F: Shown> Shown for (A, B, C, D, E, F) {
    ghost Seen = { A.Seen × (B.Seen × (C.Seen × (D.Seen × (E.Seen × (F.Seen × Unit {0}))))) };

    ghost seen = { λ t. (
      A.seen t.0,
      (
        B.seen t.1,
        (
          C.seen t.2,
          (
            D.seen t.3,
            (
              E.seen t.4,
              (
                F.seen
                    t.5,
                tt,
              ),
            ),
          ),
        ),
      ),
    ) };

    ghost meant = { tuple (member_and A.meant (member_and B.meant (member_and C.meant (member_and
        D.meant (member_and E.meant (member_and F.meant no_members)))))) };
}

impl<A: DecodeAs, B: DecodeAs, C: DecodeAs, D: DecodeAs, E: DecodeAs, F: DecodeAs> DecodeAs
    for (A, B, C, D, E, F) {
    fn from_value(
        alloc: Global,
        value: &ValueRef<'_, '_>,
    ) -> Result<(A, B, C, D, E, F), ConvertError> {
        let (a, (b, (c, (d, (e, (f, ())))))) = tuple_of::<(A, (B, (C, (D, (E, (F, ()))))))>(
            alloc, value,
        )?;
        Ok((a, b, c, d, e, f))
    }
}

impl<A: EncodeAs, B: EncodeAs, C: EncodeAs, D: EncodeAs, E: EncodeAs, F: EncodeAs> EncodeAs
    for (A, B, C, D, E, F) {
    ghost value_at = { λ table place t. tuple_at (A.value_at table (part_at table place 0) t.0 ∷
        B.value_at table (part_at table place 1) t.1 ∷ C.value_at table (part_at table place 2)
        t.2 ∷ D.value_at table (part_at table place 3) t.3 ∷ E.value_at table (part_at table place
        4) t.4 ∷ F.value_at table (part_at table place 5) t.5 ∷ []) };

    fn to_value<T: Definitions>(
        &self,
        alloc: Global,
        table: &T,
        place: Place,
    ) -> Result<Value, ConvertError> {
        tuple_value(
            alloc,
            table,
            place,
            &(
                &self.0,
                (&self.1, (&self.2, (&self.3, (&self.4, (&self.5, ()))))),
            ),
        )
    }
}

impl<A: Shown, B: Shown, C: Shown, D: Shown, E: Shown, F: Shown, G: Shown> Shown
    for (A, B, C, D, E, F, G) {
    ghost Seen = { A.Seen × (B.Seen × (C.Seen × (D.Seen × (E.Seen × (F.Seen × (G.Seen × Unit
        {0})))))) };

    ghost seen = { λ t. (
      A.seen t.0,
      (
        B.seen t.1,
        (
          C.seen t.2,
          (
            D.seen t.3,
            (
              E.seen t.4,
              (
                F.seen
                    t.5,
                (G.seen t.6, tt),
              ),
            ),
          ),
        ),
      ),
    ) };

    ghost meant = { tuple (member_and A.meant (member_and B.meant (member_and C.meant (member_and
        D.meant (member_and E.meant (member_and F.meant (member_and G.meant no_members))))))) };
}

impl<
    A: DecodeAs,
    B: DecodeAs,
    C: DecodeAs,
    D: DecodeAs,
    E: DecodeAs,
    F: DecodeAs,
    G: DecodeAs,
> DecodeAs for (A, B, C, D, E, F, G) {
    fn from_value(
        alloc: Global,
        value: &ValueRef<'_, '_>,
    ) -> Result<(A, B, C, D, E, F, G), ConvertError> {
        let (a, (b, (c, (d, (e, (f, (g, ()))))))) = tuple_of::<
            (A, (B, (C, (D, (E, (F, (G, ()))))))),
        >(alloc, value)?;
        Ok((a, b, c, d, e, f, g))
    }
}

impl<
    A: EncodeAs,
    B: EncodeAs,
    C: EncodeAs,
    D: EncodeAs,
    E: EncodeAs,
    F: EncodeAs,
    G: EncodeAs,
> EncodeAs for (A, B, C, D, E, F, G) {
    ghost value_at = { λ table place t. tuple_at (A.value_at table (part_at table place 0) t.0 ∷
        B.value_at table (part_at table place 1) t.1 ∷ C.value_at table (part_at table place 2)
        t.2 ∷ D.value_at table (part_at table place 3) t.3 ∷ E.value_at table (part_at table place
        4) t.4 ∷ F.value_at table (part_at table place 5) t.5 ∷ G.value_at table (part_at table
        place 6) t.6 ∷ []) };

    fn to_value<T: Definitions>(
        &self,
        alloc: Global,
        table: &T,
        place: Place,
    ) -> Result<Value, ConvertError> {
        tuple_value(
            alloc,
            table,
            place,
            &(
                &self.0,
                (
                    &self.1,
                    (&self.2, (&self.3, (&self.4, (&self.5, (&self.6, ()))))),
                ),
            ),
        )
    }
}

impl<A: Shown, B: Shown, C: Shown, D: Shown, E: Shown, F: Shown, G: Shown, H: Shown> Shown
    for (A, B, C, D, E, F, G, H) {
    ghost Seen = { A.Seen × (B.Seen × (C.Seen × (D.Seen × (E.Seen × (F.Seen × (G.Seen × (H.Seen ×
        Unit {0}))))))) };

    ghost seen = { λ t. (
      A.seen t.0,
      (
        B.seen t.1,
        (
          C.seen t.2,
          (
            D.seen t.3,
            (
              E.seen t.4,
              (
                F.seen
                    t.5,
                (G.seen t.6, (H.seen t.7, tt)),
              ),
            ),
          ),
        ),
      ),
    ) };

    ghost meant = { tuple (member_and A.meant (member_and B.meant (member_and C.meant (member_and
        D.meant (member_and E.meant (member_and F.meant (member_and G.meant (member_and H.meant
        no_members)))))))) };
}

impl<
    A: DecodeAs,
    B: DecodeAs,
    C: DecodeAs,
    D: DecodeAs,
    E: DecodeAs,
    F: DecodeAs,
    G: DecodeAs,
    H: DecodeAs,
> DecodeAs for (A, B, C, D, E, F, G, H) {
    fn from_value(
        alloc: Global,
        value: &ValueRef<'_, '_>,
    ) -> Result<(A, B, C, D, E, F, G, H), ConvertError> {
        let (a, (b, (c, (d, (e, (f, (g, (h, ())))))))) = tuple_of::<
            (A, (B, (C, (D, (E, (F, (G, (H, ())))))))),
        >(alloc, value)?;
        Ok((a, b, c, d, e, f, g, h))
    }
}

impl<
    A: EncodeAs,
    B: EncodeAs,
    C: EncodeAs,
    D: EncodeAs,
    E: EncodeAs,
    F: EncodeAs,
    G: EncodeAs,
    H: EncodeAs,
> EncodeAs for (A, B, C, D, E, F, G, H) {
    ghost value_at = { λ table place t. tuple_at (A.value_at table (part_at table place 0) t.0 ∷
        B.value_at table (part_at table place 1) t.1 ∷ C.value_at table (part_at table place 2)
        t.2 ∷ D.value_at table (part_at table place 3) t.3 ∷ E.value_at table (part_at table place
        4) t.4 ∷ F.value_at table (part_at table place 5) t.5 ∷ G.value_at table (part_at table
        place 6) t.6 ∷ H.value_at table (part_at table place 7) t.7 ∷ []) };

    fn to_value<T: Definitions>(
        &self,
        alloc: Global,
        table: &T,
        place: Place,
    ) -> Result<Value, ConvertError> {
        tuple_value(
            alloc,
            table,
            place,
            &(
                &self.0,
                (
                    &self.1,
                    (
                        &self.2,
                        (&self.3, (&self.4, (&self.5, (&self.6, (&self.7, ()))))),
                    ),
                ),
            ),
        )
    }
}

impl<A: Shown, B: Shown, C: Shown, D: Shown, E: Shown, F: Shown, G: Shown, H: Shown, I: Shown> Shown
    for (A, B, C, D, E, F, G, H, I) {
    ghost Seen = { A.Seen × (B.Seen × (C.Seen × (D.Seen × (E.Seen × (F.Seen × (G.Seen × (H.Seen ×
        (I.Seen × Unit {0})))))))) };

    ghost seen = { λ t. (
      A.seen t.0,
      (
        B.seen t.1,
        (
          C.seen t.2,
          (
            D.seen t.3,
            (
              E.seen t.4,
              (
                F.seen
                    t.5,
                (G.seen t.6, (H.seen t.7, (I.seen t.8, tt))),
              ),
            ),
          ),
        ),
      ),
    ) };

    ghost meant = { tuple (member_and A.meant (member_and B.meant (member_and C.meant (member_and
        D.meant (member_and E.meant (member_and F.meant (member_and G.meant (member_and H.meant
        (member_and I.meant no_members))))))))) };
}

impl<
    A: DecodeAs,
    B: DecodeAs,
    C: DecodeAs,
    D: DecodeAs,
    E: DecodeAs,
    F: DecodeAs,
    G: DecodeAs,
    H: DecodeAs,
    I: DecodeAs,
> DecodeAs for (A, B, C, D, E, F, G, H, I) {
    fn from_value(
        alloc: Global,
        value: &ValueRef<'_, '_>,
    ) -> Result<(A, B, C, D, E, F, G, H, I), ConvertError> {
        let (a, (b, (c, (d, (e, (f, (g, (h, (i, ()))))))))) = tuple_of::<
            (A, (B, (C, (D, (E, (F, (G, (H, (I, ()))))))))),
        >(alloc, value)?;
        Ok((a, b, c, d, e, f, g, h, i))
    }
}

impl<
    A: Shown,
    B: Shown,
    C: Shown,
    D: Shown,
    E: Shown,
    F: Shown,
    G: Shown,
    H: Shown,
    I: Shown,
    J: Shown,
> Shown for (A, B, C, D, E, F, G, H, I, J) {
    ghost Seen = { A.Seen × (B.Seen × (C.Seen × (D.Seen × (E.Seen × (F.Seen × (G.Seen × (H.Seen ×
        (I.Seen × (J.Seen × Unit {0}))))))))) };

    ghost seen = { λ t. (
      A.seen t.0,
      (
        B.seen t.1,
        (
          C.seen t.2,
          (
            D.seen t.3,
            (
              E.seen t.4,
              (
                F.seen
                    t.5,
                (G.seen t.6, (H.seen t.7, (I.seen t.8, (J.seen t.9, tt)))),
              ),
            ),
          ),
        ),
      ),
    ) };

    ghost meant = { tuple (member_and A.meant (member_and B.meant (member_and C.meant (member_and
        D.meant (member_and E.meant (member_and F.meant (member_and G.meant (member_and H.meant
        (member_and I.meant (member_and J.meant no_members)))))))))) };
}

impl<
    A: DecodeAs,
    B: DecodeAs,
    C: DecodeAs,
    D: DecodeAs,
    E: DecodeAs,
    F: DecodeAs,
    G: DecodeAs,
    H: DecodeAs,
    I: DecodeAs,
    J: DecodeAs,
> DecodeAs for (A, B, C, D, E, F, G, H, I, J) {
    fn from_value(
        alloc: Global,
        value: &ValueRef<'_, '_>,
    ) -> Result<(A, B, C, D, E, F, G, H, I, J), ConvertError> {
        let (a, (b, (c, (d, (e, (f, (g, (h, (i, (j, ())))))))))) = tuple_of::<
            (A, (B, (C, (D, (E, (F, (G, (H, (I, (J, ())))))))))),
        >(alloc, value)?;
        Ok((a, b, c, d, e, f, g, h, i, j))
    }
}

impl<
    A: Shown,
    B: Shown,
    C: Shown,
    D: Shown,
    E: Shown,
    F: Shown,
    G: Shown,
    H: Shown,
    I: Shown,
    J: Shown,
    K: Shown,
> Shown for (A, B, C, D, E, F, G, H, I, J, K) {
    ghost Seen = { A.Seen × (B.Seen × (C.Seen × (D.Seen × (E.Seen × (F.Seen × (G.Seen × (H.Seen ×
        (I.Seen × (J.Seen × (K.Seen × Unit {0})))))))))) };

    ghost seen = { λ t. (
      A.seen t.0,
      (
        B.seen t.1,
        (
          C.seen t.2,
          (
            D.seen t.3,
            (
              E.seen t.4,
              (
                F.seen
                    t.5,
                (G.seen t.6, (H.seen t.7, (I.seen t.8, (J.seen t.9, (K.seen t.10, tt))))),
              ),
            ),
          ),
        ),
      ),
    ) };

    ghost meant = { tuple (member_and A.meant (member_and B.meant (member_and C.meant (member_and
        D.meant (member_and E.meant (member_and F.meant (member_and G.meant (member_and H.meant
        (member_and I.meant (member_and J.meant (member_and K.meant no_members))))))))))) };
}

impl<
    A: DecodeAs,
    B: DecodeAs,
    C: DecodeAs,
    D: DecodeAs,
    E: DecodeAs,
    F: DecodeAs,
    G: DecodeAs,
    H: DecodeAs,
    I: DecodeAs,
    J: DecodeAs,
    K: DecodeAs,
> DecodeAs for (A, B, C, D, E, F, G, H, I, J, K) {
    fn from_value(
        alloc: Global,
        value: &ValueRef<'_, '_>,
    ) -> Result<(A, B, C, D, E, F, G, H, I, J, K), ConvertError> {
        let (a, (b, (c, (d, (e, (f, (g, (h, (i, (j, (k, ()))))))))))) = tuple_of::<
            (A, (B, (C, (D, (E, (F, (G, (H, (I, (J, (K, ()))))))))))),
        >(alloc, value)?;
        Ok((a, b, c, d, e, f, g, h, i, j, k))
    }
}

impl<
    A: Shown,
    B: Shown,
    C: Shown,
    D: Shown,
    E: Shown,
    F: Shown,
    G: Shown,
    H: Shown,
    I: Shown,
    J: Shown,
    K: Shown,
    L: Shown,
> Shown for (A, B, C, D, E, F, G, H, I, J, K, L) {
    ghost Seen = { A.Seen × (B.Seen × (C.Seen × (D.Seen × (E.Seen × (F.Seen × (G.Seen × (H.Seen ×
        (I.Seen × (J.Seen × (K.Seen × (L.Seen × Unit {0}))))))))))) };

    ghost seen = { λ t. (
      A.seen t.0,
      (
        B.seen t.1,
        (
          C.seen t.2,
          (
            D.seen t.3,
            (
              E.seen t.4,
              (
                F.seen
                    t.5,
                (
                  G.seen t.6,
                  (
                    H.seen t.7,
                    (
                      I.seen t.8,
                      (
                        J.seen t.9,
                        (
                          K.seen t.10,
                          (
                            L.seen t.11,
                            tt,
                          ),
                        ),
                      ),
                    ),
                  ),
                ),
              ),
            ),
          ),
        ),
      ),
    ) };

    ghost meant = { tuple (member_and A.meant (member_and B.meant (member_and C.meant (member_and
        D.meant (member_and E.meant (member_and F.meant (member_and G.meant (member_and H.meant
        (member_and I.meant (member_and J.meant (member_and K.meant (member_and L.meant
        no_members)))))))))))) };
}

impl<
    A: DecodeAs,
    B: DecodeAs,
    C: DecodeAs,
    D: DecodeAs,
    E: DecodeAs,
    F: DecodeAs,
    G: DecodeAs,
    H: DecodeAs,
    I: DecodeAs,
    J: DecodeAs,
    K: DecodeAs,
    L: DecodeAs,
> DecodeAs for (A, B, C, D, E, F, G, H, I, J, K, L) {
    fn from_value(
        alloc: Global,
        value: &ValueRef<'_, '_>,
    ) -> Result<(A, B, C, D, E, F, G, H, I, J, K, L), ConvertError> {
        let (a, (b, (c, (d, (e, (f, (g, (h, (i, (j, (k, (l, ())))))))))))) = tuple_of::<
            (A, (B, (C, (D, (E, (F, (G, (H, (I, (J, (K, (L, ())))))))))))),
        >(alloc, value)?;
        Ok((a, b, c, d, e, f, g, h, i, j, k, l))
    }
}
