//! What the sections of an EDS say of objects and entries (CiA 306), each section by itself.
#![tactic(auto)]

mod access;
mod described;
mod name;
mod object_type;
mod said;
mod section;
mod text;

pub use access::is_not_zero;
pub use described::{DefaultText, Described, highest_sub};
pub use name::{index_named, place_named, sub_listed, values_named};
pub use object_type::ObjectType;
pub use said::Said;
pub use section::{compact_count, is_plain, kind_of};
pub use text::unless_empty;
