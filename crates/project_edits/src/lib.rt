//! What edits of a project are and keep to, why a command is refused, and edits as the lines that are read as them.
#![tactic(auto)]

mod block;
mod command;
mod edit;
mod event_lines;
mod fault;
mod forms;
pub mod limits;
mod link_lines;
mod manager_settings;
mod printing;
mod script_version;
mod time_stamps;
mod written;

pub use command::Command;
pub use edit::Edit;
pub use event_lines::write_event;
pub use fault::{EditFault, refusal};
pub use forms::{has_control, is_name, is_plain};
pub use link_lines::{write_message, write_receive, write_sink, write_source, write_start};
pub use manager_settings::ManagerSettings;
pub use printing::{
    write_bitrate, write_eds, write_horizon, write_manager, write_need, write_node, write_param,
    write_sync_counter, write_time_stamps, write_version,
};
pub use script_version::ScriptVersion;
pub use time_stamps::TimeStamps;
