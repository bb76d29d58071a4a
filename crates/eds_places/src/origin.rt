//! Where an entry stands.

use ini_text::Section;

/// Where an entry of a device stands.
#[derive(Clone, Copy)]
pub enum Origin<'a> {
    /// In a section of its own.
    Own(&'a Section),
    /// In the section of a compact object, with its highest sub-index.
    Compact(&'a Section, u8),
}
