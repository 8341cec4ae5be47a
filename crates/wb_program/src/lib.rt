//! What the program does by what its command line asks for: what `wb_sessions` does over one reader and one writer, and a desk on
//! connections, for a day or for as long as anybody comes, with a journal and without.
#![tactic(auto)]

mod doing;
mod kept_hosting;
mod kept_seat;
mod kept_serving;
mod stays;

pub use crate::doing::do_asked;
pub use crate::kept_hosting::host_kept_with;
pub use crate::kept_seat::{Failing, KeptDesk};
pub use crate::kept_serving::serve_kept_on;
pub use crate::stays::kept_staying::{lend_kept_on, stay_kept, stay_kept_with};
pub use crate::stays::staying::{lend_on, stay};
