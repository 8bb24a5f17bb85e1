//! A field of no size that names a type, and that contracts see as a unit.

use std::marker::{Model, PhantomData};

/// Names a type and holds nothing. Any two are equal.
#[derive(Drop)]
pub struct Marker<T> {
    named: PhantomData<T>,
}

impl<T> Model for Marker<T> {
    ghost Value = { Unit {0} };

    ghost view = { λ _. tt };
}

impl<T> Marker<T> {
    /// The only value.
    pub fn new() -> Self {
        Marker { named: PhantomData }
    }
}
