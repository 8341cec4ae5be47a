//! A workbook: named domains and arrays as a finite map of cells, and changes to them, all or nothing.
#![tactic(auto)]

mod book;
mod cells;
mod changes;
pub mod reads;
mod refusal;
mod values;

pub use crate::book::families::{members_in, members_of, seen};
pub use crate::book::locales::locale_at;
pub use crate::book::member_runs::{clear_whole, clearing_run, members_before, set_whole};
pub use crate::book::member_walk::MemberWalk;
pub use crate::book::readers::{index_at, object_at, object_count, object_of, size_at, user_at};
pub use crate::book::store;
pub use crate::book::stored::StoredCells;
pub use crate::cells::cell::{AnyCell, Cell};
pub use crate::cells::kind::{AnyDomain, DomainKind, KeyType, Kind};
pub use crate::cells::pattern::Pattern;
pub use crate::cells::value::{AnyValue, Binding, Value};
pub use crate::changes::change::CellChange;
pub use crate::changes::delta::Delta;
pub use crate::changes::indexed::IndexedChange;
pub use crate::changes::inverse::Inverse;
pub use crate::changes::labels::LabelChanges;
pub use crate::changes::list::Changes;
pub use crate::changes::numbers::RectangleNumbers;
pub use crate::changes::packed::Packed;
pub use crate::changes::rectangle::RectangleChanges;
pub use crate::changes::row::{IndexedRow, RowKind};
pub use crate::changes::run::{ChangeRun, RunForm};
pub use crate::reads::ReadRun;
pub use crate::refusal::{EditRefusal, WhyRefused};
pub use crate::values::index::{AnyIndex, Index, coordinates_of};
pub use crate::values::key::AsIndex;
pub use crate::values::layout::{AnyLayout, LayoutByRank};
pub use crate::values::name::{BadName, Name};
pub use crate::values::point::Point;
pub use crate::values::rectangle::{AnyRect, Ranked};
pub use crate::values::validity::{index_validity, indices_validity, numbers_validity};
