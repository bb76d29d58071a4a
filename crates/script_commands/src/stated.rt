//! The numbers of a message as its line has them.

/// The numbers of a message as its line has them, before they are judged.
#[derive(Clone, Copy)]
pub(crate) struct Stated {
    pub(crate) node: u64,
    pub(crate) tpdo: u64,
    pub(crate) transmission: u64,
    pub(crate) inhibit: u64,
    pub(crate) event: u64,
    pub(crate) cob: u16,
}
