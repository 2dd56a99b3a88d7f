// Reads what stands in one segment: its elements and components. Every call answers for any service characters and for any part of a delivery,
// from one place up to another.
#![tactic(auto)]

mod ahead;
mod components;
mod cursor;
mod endings;
mod marks;
mod scan;
mod services;
mod usual;

pub use ahead::Scan;
pub use components::{Span, component_at};
pub use cursor::{Cursor, Visit};
pub use endings::{Ending, ending_at, ending_of, frees_next};
pub use marks::{UsualMarks, marks_in};
pub use scan::{Extent, component_from};
pub use services::{Services, services_in};
pub use usual::has_usual_services;
