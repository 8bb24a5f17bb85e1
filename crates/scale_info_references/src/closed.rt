//! Closed lists of descriptions: each reference of each description is the index of one.
ghost use Rattle.std.specs.Prelude.{◌≡◌, ◌≤◌, ℕ, List, length};
ghost use Rattle.scale_info_references.specs.Closed.{AreClosed};
ghost use Rattle.scale_info_types.specs.Portable.{Description};

use scale_info_types::form::PortableForm;
use scale_info_types::ty::Type;

/// What holds a closed list of descriptions: the ids are 0, 1, 2 and so on, each has a description,
/// and each id in a description is one of them.
///
/// A registry is one, and a table can be made of any. Any type may implement it. An implementor
/// states the descriptions and the number of ids, and owes the contracts of both functions.
pub trait Descriptions: Sized {
    /// The descriptions, in ascending order of id.
    ghost listed: { Self → List Description };

    /// The number of ids.
    ghost count: { Self → ℕ };

    /// The descriptions, in ascending order of id. Does not allocate.
    fn descriptions(&self) -> &[Type<PortableForm>]
        ensures list { result.now ≡ listed self.now }
        ensures closed { AreClosed (count self.now) (listed self.now) }
        ensures few { length (listed self.now) ≤ 4294967295 };

    /// The descriptions, in ascending order of id. What else there is, is dropped. Does not
    /// allocate.
    fn into_descriptions(self) -> Vec<Type<PortableForm>>
        ensures list { result.items ≡ listed self }
        ensures closed { AreClosed (count self) (listed self) }
        ensures few { length (listed self) ≤ 4294967295 };
}
