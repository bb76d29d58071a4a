//! INI text, as EDS and DCF files use it.
#![tactic(auto)]

mod comparing;
mod fault;
mod ini;
pub mod laws;
mod line;
mod name;
mod number;
mod pair;
mod section;
mod table;
mod text;
mod text_hash;

pub use comparing::same_sections;
pub use fault::IniFault;
pub use ini::Ini;
pub use pair::Pair;
pub use section::Section;
pub use text::{is_bad_byte, is_long_line};
