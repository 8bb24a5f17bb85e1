//! Tables as reference systems, tried on a small table.
ghost use Rattle.scale_info_table.specs.TableSystems.{system_of};
ghost use Rattle.scale_info_table.specs.TableExamples.{ids_that_are_not_indices};
ghost use Rattle.scale_info_types.specs.TypeExamples.{key_values, plain};
ghost use Rattle.scale_info_types.specs.Shapes.{shape};
ghost use Rattle.scale_info_types.specs.declared.ty.TypeDef.TheVariants as def;
ghost use Rattle.scale_info_primitives.specs.declared.primitive.TypeDefPrimitive.TheVariants as kind;
ghost use Rattle.std.specs.Prelude.{◌≡◌, ◌∷◌, [], None, Some};

/// Where the entry at index 0 has the id 7 and the entry at index 1 the id 0, the nodes of the
/// table are 0 and 1, the indices: 0 refers to 1 and to itself, 1 refers to nothing, and 7 lies
/// outside.
pub fn indices_are_nodes()
    ensures map { system_of ids_that_are_not_indices 0
        ≡ Some (record { shape = shape (λ text. text) (key_values 1 0); refs = 1 ∷ 0 ∷ [] }) }
    ensures bool { system_of ids_that_are_not_indices 1
        ≡ Some (record {
          shape = shape (λ text. text) (plain (def.Primitive kind.Bool));
          refs = [];
        }) }
    ensures id { system_of ids_that_are_not_indices 7 ≡ None }
{}
