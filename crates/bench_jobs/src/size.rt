//! How large the inputs of a job are.

/// How large the inputs of a job are.
#[derive(Clone, Copy)]
pub enum Size {
    /// A hundredth or so, to be looked at.
    Small,
    /// As users have them.
    Whole,
}

impl Size {
    /// The number for this size.
    pub fn of<T: Copy + Drop>(self, small: T, whole: T) -> T {
        match self {
            Size::Small => small,
            Size::Whole => whole,
        }
    }
}
