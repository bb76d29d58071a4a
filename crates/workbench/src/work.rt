//! How much work the answers of a session took.

/// How much work the answers of a session took: segments run and parts refreshed.
#[derive(Clone, Copy, Debug, PartialEq, Eq)]
pub struct Work {
    pub segments: u64,
    pub parts: u64,
}
