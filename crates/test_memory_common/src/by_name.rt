//! Calls that are made for a type by its name: a type more is an entry here.
use crate::own::{
    A as OwnA, B as OwnB, Bits, C as OwnC, Choice, D as OwnD, Documented, EnumOfItself, Fielded,
    I256, Mapping, Missing, P as OwnP, Recursive, References, Referring, U256, Wide,
};
use crate::phantom::{Nothing, Phantom};
use crate::structs::MyStruct;
use crate::tree::Tree;
use crate::types::{Boxes, Many, Marked, Pair, TooLong, Triple};
use scale_info::TypeInfo;
use scale_info::impls::{Compact, SliceOf, StrType};
use scale_info::meta_type::HasIdentity;
use std::borrow::Cow;
use std::collections::{BTreeMap, BTreeSet, BinaryHeap, VecDeque};
use std::marker::PhantomData;
use std::num::{
    NonZeroI8, NonZeroI16, NonZeroI32, NonZeroI64, NonZeroI128, NonZeroU8, NonZeroU16, NonZeroU32,
    NonZeroU64, NonZeroU128,
};
use std::ops::{Range, RangeInclusive};
use std::rc::Rc;
use std::test::Fail;
use std::time::Duration;

type A = u8;

type B = u16;

type C = u32;

type D = u64;

type E = u128;

type F = i8;

type G = i16;

type H = i32;

type I = i64;

type J = i128;

type K = bool;

type L = char;

type M = NonZeroU8;

type N = NonZeroU16;

type O = NonZeroU32;

type P = NonZeroU64;

type Q = NonZeroU128;

type R = NonZeroI8;

type S = NonZeroI16;

type T = NonZeroI32;

/// A tuple of twenty members.
pub type Twenty = (A, B, C, D, E, F, G, H, I, J, K, L, M, N, O, P, Q, R, S, T);

/// A call that is made for a type with a description.
pub trait Described: Drop {
    /// What it returns.
    type Returned;

    /// Makes the call.
    fn of<T: TypeInfo>(self) -> Self::Returned;
}

/// A call that is made for a type with an identity.
pub trait Known: Drop {
    /// What it returns.
    type Returned;

    /// Makes the call.
    fn of<T: HasIdentity>(self) -> Self::Returned;
}

/// What was made for the type of a name; an error where no type has it.
pub fn found<T>(made: Option<Result<T, Fail>>) -> Result<T, Fail> {
    match made {
        Some(made) => made,
        None => Err(Fail::new("no type has this name")),
    }
}

/// Makes a call for the type that stands beside the name; the call itself where no type has it.
macro_rules! of_name {
    ($call:expr, $name:expr; $($text:literal => $ty:ty),*) => {
        match $name {
            $($text => Ok($call.of::<$ty>()),)*
            _ => Err($call),
        }
    };
}

/// Makes a call for the type with a description that has this name; None if there is none.
pub fn for_type<V: Described>(call: V, name: &str) -> Option<V::Returned> {
    for_primitive(call, name)
        .or_else(|call| for_value(call, name))
        .or_else(|call| for_list(call, name))
        .or_else(|call| for_array(call, name))
        .or_else(|call| for_pointer(call, name))
        .or_else(|call| for_generic(call, name))
        .or_else(|call| for_phantom(call, name))
        .or_else(|call| for_tuple(call, name))
        .or_else(|call| for_short_tuple(call, name))
        .or_else(|call| for_long_tuple(call, name))
        .ok()
}

/// Makes a call for a built-in type.
fn for_primitive<V: Described>(call: V, name: &str) -> Result<V::Returned, V> {
    of_name!(call, name;
        "bool" => bool, "char" => char, "u8" => u8, "u16" => u16, "u32" => u32, "u64" => u64,
        "u128" => u128, "i8" => i8, "i16" => i16, "i32" => i32, "i64" => i64, "i128" => i128
    )
}

/// Makes a call for a number that is not zero, or a length of time.
fn for_value<V: Described>(call: V, name: &str) -> Result<V::Returned, V> {
    of_name!(call, name;
        "NonZeroU8" => NonZeroU8, "NonZeroU16" => NonZeroU16, "NonZeroU32" => NonZeroU32,
        "NonZeroU64" => NonZeroU64, "NonZeroU128" => NonZeroU128, "NonZeroI8" => NonZeroI8,
        "NonZeroI16" => NonZeroI16, "NonZeroI32" => NonZeroI32, "NonZeroI64" => NonZeroI64,
        "NonZeroI128" => NonZeroI128, "Duration" => Duration
    )
}

/// Makes a call for a text, a list or an array.
fn for_list<V: Described>(call: V, name: &str) -> Result<V::Returned, V> {
    of_name!(call, name;
        "StrType" => StrType, "String" => String, "&str" => &str, "SliceOf<u8>" => SliceOf<u8>,
        "SliceOf<bool>" => SliceOf<bool>, "&[u8]" => &[u8], "Vec<u8>" => Vec<u8>,
        "Vec<u32>" => Vec<u32>, "Vec<Box<u8>>" => Vec<Box<u8>>, "VecDeque<u8>" => VecDeque<u8>,
        "VecDeque<String>" => VecDeque<String>
    )
}

/// Makes a call for an array or a compact integer.
fn for_array<V: Described>(call: V, name: &str) -> Result<V::Returned, V> {
    of_name!(call, name;
        "[u8; 4]" => [u8; 4], "[u8; 32]" => [u8; 32], "[u32; 16]" => [u32; 16],
        "[[i32; 5]; 5]" => [[i32; 5]; 5], "[u8; 4294967295]" => [u8; 4294967295],
        "[u8; 4294967296]" => TooLong, "Compact<u8>" => Compact<u8>, "Compact<u32>" => Compact<u32>,
        "Compact<i32>" => Compact<i32>
    )
}

/// Makes a call for a pointer, or the program's tree.
fn for_pointer<V: Described>(call: V, name: &str) -> Result<V::Returned, V> {
    of_name!(call, name;
        "Box<u8>" => Box<u8>, "Box<char>" => Box<char>, "Box<Box<u8>>" => Boxes, "Rc<u8>" => Rc<u8>,
        "&u8" => &u8, "&mut u8" => &mut u8, "Cow<'static, u128>" => Cow<'static, u128>,
        "Tree" => Tree, "Box<Tree>" => Box<Tree>
    )
}

/// Makes a call for a standard type with arguments.
fn for_generic<V: Described>(call: V, name: &str) -> Result<V::Returned, V> {
    of_name!(call, name;
        "Option<u8>" => Option<u8>, "Option<u128>" => Option<u128>,
        "Option<Vec<u32>>" => Option<Vec<u32>>, "Option<Box<u8>>" => Option<Box<u8>>,
        "Option<(u32, bool)>" => Option<Pair>, "Result<bool, String>" => Result<bool, String>,
        "Range<u8>" => Range<u8>, "RangeInclusive<u8>" => RangeInclusive<u8>,
        "BTreeMap<String, u32>" => BTreeMap<String, u32>, "BTreeSet<String>" => BTreeSet<String>,
        "BTreeSet<Box<u8>>" => BTreeSet<Box<u8>>, "BinaryHeap<String>" => BinaryHeap<String>
    )
}

/// Makes a call for `PhantomData`, or a type with a part of it.
fn for_phantom<V: Described>(call: V, name: &str) -> Result<V::Returned, V> {
    of_name!(call, name;
        "PhantomData<i32>" => PhantomData<i32>,
        "Option<PhantomData<u8>>" => Option<PhantomData<u8>>,
        "Result<PhantomData<u8>, u8>" => Result<PhantomData<u8>, u8>,
        "Range<PhantomData<u8>>" => Range<PhantomData<u8>>, "(u64, PhantomData<u8>)" => Marked,
        "(u64, Box<PhantomData<()>>)" => (u64, Box<PhantomData<()>>),
        "(u64, Box<PhantomData<u8>>)" => (u64, Box<PhantomData<u8>>),
        "(PhantomData<u8>,)" => (PhantomData<u8>,)
    )
}

/// Makes a call for a tuple.
fn for_tuple<V: Described>(call: V, name: &str) -> Result<V::Returned, V> {
    of_name!(call, name;
        "(u32, bool)" => Pair, "(u32, [u8; 32], bool)" => Triple,
        "((i8, i16), (u32, u64))" => ((i8, i16), (u32, u64)), "(bool,)" => (bool,), "Many" => Many
    )
}

/// Makes a call for a tuple of so many members, none to ten.
fn for_short_tuple<V: Described>(call: V, name: &str) -> Result<V::Returned, V> {
    of_name!(call, name;
        "tuple of 0" => (), "tuple of 1" => (A,), "tuple of 2" => (A, B), "tuple of 3" => (A, B, C),
        "tuple of 4" => (A, B, C, D), "tuple of 5" => (A, B, C, D, E),
        "tuple of 6" => (A, B, C, D, E, F), "tuple of 7" => (A, B, C, D, E, F, G),
        "tuple of 8" => (A, B, C, D, E, F, G, H), "tuple of 9" => (A, B, C, D, E, F, G, H, I),
        "tuple of 10" => (A, B, C, D, E, F, G, H, I, J)
    )
}

/// Makes a call for a tuple of so many members, eleven to twenty.
fn for_long_tuple<V: Described>(call: V, name: &str) -> Result<V::Returned, V> {
    of_name!(call, name;
        "tuple of 11" => (A, B, C, D, E, F, G, H, I, J, K),
        "tuple of 12" => (A, B, C, D, E, F, G, H, I, J, K, L),
        "tuple of 13" => (A, B, C, D, E, F, G, H, I, J, K, L, M),
        "tuple of 14" => (A, B, C, D, E, F, G, H, I, J, K, L, M, N),
        "tuple of 15" => (A, B, C, D, E, F, G, H, I, J, K, L, M, N, O),
        "tuple of 16" => (A, B, C, D, E, F, G, H, I, J, K, L, M, N, O, P),
        "tuple of 17" => (A, B, C, D, E, F, G, H, I, J, K, L, M, N, O, P, Q),
        "tuple of 18" => (A, B, C, D, E, F, G, H, I, J, K, L, M, N, O, P, Q, R),
        "tuple of 19" => (A, B, C, D, E, F, G, H, I, J, K, L, M, N, O, P, Q, R, S),
        "tuple of 20" => Twenty
    )
}

/// A call that needs an identity alone, made for types with a description.
#[derive(Drop)]
struct ByIdentity<V> {
    call: V,
}

impl<V: Known> Described for ByIdentity<V> {
    type Returned = V::Returned;

    fn of<T: TypeInfo>(self) -> V::Returned {
        self.call.of::<T>()
    }
}

/// Makes a call for the type with an identity that has this name; None if there is none.
pub fn for_known_type<V: Known>(call: V, name: &str) -> Option<V::Returned> {
    match for_own(call, name).or_else(|call| for_composite(call, name)) {
        Ok(made) => Some(made),
        Err(call) => for_type(ByIdentity { call }, name),
    }
}

/// Makes a call for a type of the program's own that is not generic.
fn for_own<V: Known>(call: V, name: &str) -> Result<V::Returned, V> {
    of_name!(call, name;
        "Recursive" => Recursive, "Bits" => Bits, "Mapping" => Mapping, "Missing" => Missing,
        "Referring" => Referring, "Wide" => Wide, "EnumOfItself" => EnumOfItself,
        "References" => References, "Documented" => Documented, "Fielded" => Fielded,
        "Choice" => Choice, "U256" => U256, "I256" => I256
    )
}

/// Makes a call for a composite or a generic type of the program's own.
fn for_composite<V: Known>(call: V, name: &str) -> Result<V::Returned, V> {
    of_name!(call, name;
        "A" => OwnA, "B" => OwnB, "C" => OwnC, "D" => OwnD, "P" => OwnP,
        "Phantom<u8>" => Phantom<u8>, "Box<Phantom<()>>" => Box<Phantom<Nothing>>,
        "Box<Phantom<u8>>" => Box<Phantom<u8>>, "Phantom<Phantom<()>>" => Phantom<Phantom<Nothing>>,
        "MyStruct<bool>" => MyStruct<bool>, "Box<MyStruct<bool>>" => Box<MyStruct<bool>>
    )
}
