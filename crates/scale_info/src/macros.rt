//! Macros that list types and parameters in the body of a function.

/// The list of these types by their identities, in order, as `Result<Vec<MetaType>, AllocError>`.
/// The allocator comes first.
///
/// ```text
/// TypeDefTuple::new(alloc, tuple_meta_type!(alloc; u8, Vec<bool>)?)  // the definition of a tuple
/// ```
///
/// Errors: `AllocError`, if an allocation failed.
#[macro_export]
macro_rules! tuple_meta_type {
    (@ $alloc:expr; $so_far:expr;) => {
        $so_far
    };
    (@ $alloc:expr; $so_far:expr; $ty:ty, $($rest:ty,)*) => {
        $crate::tuple_meta_type!(
            @ $alloc; $crate::build::lists::with_type::<$ty>($alloc, $so_far); $($rest,)*
        )
    };
    ($alloc:expr; $($ty:ty),* $(,)?) => {
        $crate::tuple_meta_type!(@ $alloc; Ok(Vec::new($alloc)); $($ty,)*)
    };
}

/// The list of these parameters, each with its name as written and the type that it is given, in
/// order, as `Result<Vec<TypeParameter>, AllocError>`. The allocator comes first.
///
/// ```text
/// named_type_params!(alloc; (T, u8), (U, u32))  // the parameters of a Pair<u8, u32>
/// ```
///
/// Errors: `AllocError`, if an allocation failed.
#[macro_export]
macro_rules! named_type_params {
    (@ $alloc:expr; $so_far:expr;) => {
        $so_far
    };
    (@ $alloc:expr; $so_far:expr; ($name:ty, $ty:ty), $($rest:tt,)*) => {
        $crate::named_type_params!(
            @ $alloc;
            $crate::build::lists::with_type_param::<$ty>($alloc, $so_far, stringify!($name));
            $($rest,)*
        )
    };
    ($alloc:expr; $(($name:ty, $ty:ty)),* $(,)?) => {
        $crate::named_type_params!(@ $alloc; Ok(Vec::new($alloc)); $(($name, $ty),)*)
    };
}

/// The list of these parameters, each with the type's name as written and the type itself, in
/// order, as `Result<Vec<TypeParameter>, AllocError>`. The allocator comes first.
///
/// ```text
/// type_params!(alloc; T, U)  // in a body with the type parameters T and U
/// ```
///
/// Errors: `AllocError`, if an allocation failed.
#[macro_export]
macro_rules! type_params {
    ($alloc:expr; $($ty:ty),* $(,)?) => {
        $crate::named_type_params!($alloc; $(($ty, $ty)),*)
    };
}
