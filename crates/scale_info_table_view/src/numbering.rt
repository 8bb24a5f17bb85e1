//! What some entries of a view reach.
ghost use Rattle.std.specs.Prelude.{◌≡◌, [], IfErr, IfOk, List, ℕ, length};
ghost use Rattle.scale_info_numberings.specs.Numberings.{IsNumbering};
ghost use Rattle.scale_info_numberings.specs.Systems.{looks};
ghost use Rattle.scale_info_types.specs.Shapes as shapes;
ghost use Rattle.scale_info_walk.specs.SystemLaws.{nothing_past};
ghost use Rattle.scale_info_walk.specs.TypeSystems.{types_system};
ghost use Rattle.scale_info_walk.specs.Walks.{IsWalkError};

use crate::view::TableView;
use scale_info_walk::references::References;
use scale_info_walk::refs::Refs;
use scale_info_walk::walk::{Numbering, RetainError, number_references};
use std::alloc::{AllocError, Global};

impl<'i> References for TableView<'i> {
    ghost Shape = { shapes.Shape };

    ghost system = { λ view. types_system view.types };

    ghost count = { λ view. length view.types };

    ghost outside = { λ view id past. nothing_past view.types id past };

    fn len(&self) -> usize {
        self.len()
    }

    fn prepend_refs(&self, alloc: Global, id: u32, refs: &mut Refs) -> Result<(), AllocError> {
        match self.references(alloc, id)? {
            Some(ids) => refs.prepend(&ids),
            None => unreachable!(),
        }
    }
}

impl<'i> TableView<'i> {
    /// Numbers what the roots reach, depth first, as [`number`](scale_info_walk::walk::number) does
    /// of the table's entries. No description is made.
    ///
    /// So a caller who wants some entries and all that they refer to knows which to ask for.
    ///
    /// Errors: `Dangling`, where an id is reached that is no index; `TooManyTypes`, where there are
    /// more than 4294967295 entries; `Memory`, where an allocation failed.
    pub fn number(&self, alloc: Global, roots: &[u32]) -> Result<Numbering, RetainError>
        ensures numbering { IfOk result (λ n.
            IsNumbering (types_system self.now.types) roots.now n.order.items) }
        ensures only { IfOk result (λ n. (L : List ℕ) →
            IsNumbering (types_system self.now.types) roots.now L → L ≡ n.order.items) }
        ensures steps { IfOk result
            (λ n. n.steps ≡ looks (types_system self.now.types) n.order.items) }
        ensures cause { IfErr result
            (IsWalkError (types_system self.now.types) (length self.now.types) [] roots.now) }
    {
        let found = number_references(alloc, self, roots)?;
        Ok(Numbering {
            order: found.order,
            steps: found.steps,
        })
    }
}
