//! What the fields of a type have.
ghost use Rattle.std.specs.Prelude.{◌≡◌};
ghost use Rattle.scale_info_table_describe.specs.TypeNames.{has_name};
ghost use Rattle.scale_info_table_describe.specs.TypeDeclarations.{has_docs};

use scale_info_types::form::PortableForm;
use scale_info_types::ty::Field;

/// Whether one of the fields has a name.
pub(crate) fn has_name(fields: &[Field<PortableForm>]) -> bool
    ensures { result ≡ has_name fields.now }
{
    for field in fields {
        if field.name.is_some() {
            return true;
        }
    }
    false
}

/// Whether one of the fields has documentation.
pub(crate) fn has_docs(fields: &[Field<PortableForm>]) -> bool
    ensures { result ≡ has_docs fields.now }
{
    for field in fields {
        if !field.docs.is_empty() {
            return true;
        }
    }
    false
}
