//! The data types of CiA 301, and their values as the texts of an EDS or DCF (CiA 306) spell them.
#![tactic(auto)]

mod data_type;
mod form;
mod formula;
mod hex;
mod integer;
pub mod laws;
mod little;
mod little_numbers;
mod number;
mod printing;
mod range;
mod reading;
mod spelling;
mod value;

pub use data_type::{DataType, width_bits};
pub use form::{Form, Width};
pub use formula::{Formula, read_formula};
pub use integer::integer_of;
pub use little::{from_le, to_le};
pub use little_numbers::{number_8, number_16, number_32, number_64};
pub use number::read_number;
pub use printing::hex_text;
pub use reading::{is_spelled, spelled_value, value_of};
pub use spelling::Spelling;
pub use value::{Value, default_value, number_in};
