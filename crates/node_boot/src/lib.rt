//! The boot of one node by the NMT manager (CiA 302).
#![tactic(auto, using(image_parts::proofs::RecordLemmas::record_laws))]

mod answers;
mod boot_stage;
mod boot_step;
mod boots;
mod download;
mod identity_check;
mod note;
mod note_kind;
mod notes;
mod time_outs;
mod write_place;

pub use answers::sdo_answer;
pub use boot_stage::BootStage;
pub use boot_step::BootStep;
pub use boots::Boots;
pub use identity_check::boot_nmt_slave;
pub use note::Note;
pub use note_kind::NoteKind;
pub use notes::Notes;
pub use time_outs::{deadline_of, is_timed_out, sdo_time_out};
pub use write_place::WritePlace;
