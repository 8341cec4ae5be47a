//! The stored cells that lines tell of.
//!
//! `specs/FromLines/Told.antt` has the cells that lines tell of, and `specs/FromLines/Rebuilt.antt` the law that a well-formed
//! workbook comes back from what its lines say.
//!
//! Its tests are in the crate `wb_tests`.
mod finding;
mod making;
mod putting;
mod told;

pub use crate::workbook::finding::{find, places_of};
pub use crate::workbook::making::line_validity;
pub use crate::workbook::putting::{points_of, put, put_presents};
pub use crate::workbook::told::{indices_of, put_stored};
