//! The devices of a project that were read, the nodes that its messages name, and the writes of a node; the values that
//! diagnostics want of a node's entries once it is configured, as among its defaults with each of its writes over them,
//! which entries a data sheet gives a parameter, and which of its defaults may spell no value at some node; and laws of
//! the files and the plan of a project.
#![tactic(auto)]

mod doubtful_defaults;
pub mod file_laws;
mod given_parameters;
pub mod laws;
mod library;
mod named;
mod node_writes;
mod numbers;
pub mod plan_laws;
mod sheet_entries;
mod wanted;
pub mod write_laws;

pub use doubtful_defaults::spells_none;
pub use library::Library;
pub use named::Named;
pub use node_writes::NodeWrites;
pub use numbers::{unsigned_8, unsigned_16, unsigned_32};
pub use sheet_entries::{SheetEntries, entries_of_sheet};
pub use wanted::{is_tpdo_cob_id, sends, values_given, vendor_wanted_values, wanted_values};
