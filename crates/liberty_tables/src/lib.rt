//! Tables of a Liberty library: its units, the templates of its tables, and the table that a group means, or the first fault
//! that stands in the way.
#![tactic(auto)]

mod attribute_texts;
mod faults;
mod group_index;
mod groups;
mod laws;
mod library_units;
mod number_lists;
mod table_axes;
mod table_names;
mod tables;
mod templates;
mod units;

pub use faults::CellFault;
pub use group_index::GroupIndex;
pub use groups::{first_group, is_named, value_in};
pub use laws::one_table;
pub use library_units::LibraryUnits;
pub use table_names::TableNames;
pub use tables::{build_table, build_transition};
pub use templates::{Template, Templates, Variables};
pub use units::{load_unit, time_unit};
