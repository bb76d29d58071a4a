//! What a simulation reads: the parts of an image, by name; and computations that ask for values by name: what they
//! answer under an image of these values, and which of them they read.
#![tactic(auto)]

mod asked;
pub mod asking_laws;
mod comparing;
mod content;
mod identity;
mod part;
mod read;
mod roster;
mod start_mode;
mod window;

pub use asked::Asked;
pub use content::PartContent;
pub use identity::Identity;
pub use part::Part;
pub use read::Read;
pub use roster::Roster;
pub use start_mode::StartMode;
pub use window::{END, WINDOW, Window};
