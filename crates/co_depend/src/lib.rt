//! What hands out the parts of a project to a simulation, and records what was asked.
#![tactic(auto)]

mod pointer;
mod recording_parts;

pub use co_project::Project as Inputs;
pub use kept_parts::KeptParts as Image;
pub use kept_values::{Makes, Memo, Meter, Offers};
pub use project_parts::Part;
pub use recording_parts::RecordingParts;
