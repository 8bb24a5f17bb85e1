//! Values shown to a visitor as they are decoded, and skipped.

pub use scale_info_value::value::Failure;
pub use scale_info_value_visit::event::{EventVisitor, ValueEvent, visit_events};
pub use scale_info_value_visit::skip::skip_value;
pub use scale_info_value_visit::visit::visit_value;
pub use scale_info_value_visit::visitor::{ValueVisitor, VisitError};
pub use scale_info_value_visit::within::{WithinError, visit_value_within};
