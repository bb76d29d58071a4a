//! Spans of a trace: run with a record of what they read, which is compared with an image, and told as text.
//!
//! What is read again and again is kept with private numbers, and compared by number: two contents of one number are one
//! content. While an image stays as it is, each of its parts is asked for once, and compared by value once with each
//! other content that is met one after another.
//!
//! The text of a trace is kept with the lines of each of its passages, and a reply is put together of it.
#![tactic(auto, using(image_parts::proofs::RecordLemmas::record_laws))]

mod handing;
mod kept_read;
mod known_read;
mod look;
mod matching;
mod passage;
mod passages;
mod place;
mod reads_now;
mod recording;
mod running;
mod shown;
mod spans;
mod text_size;
mod trace_text;

pub use kept_read::KeptRead;
pub use look::Look;
pub use matching::matches;
pub use passage::Passage;
pub use place::Place;
pub use reads_now::ReadsNow;
pub use recording::recorded;
pub use running::{Ran, run};
pub use trace_text::TraceText;
