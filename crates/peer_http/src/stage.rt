//! How far a reply was read.

/// How far a reply was read.
#[derive(Clone, Copy, Debug, PartialEq, Eq)]
pub(crate) enum Stage {
    /// The head of the final reply did not come whole yet.
    Head,
    /// It came, and has this status.
    Content(u16),
    /// The reply was given, or cannot be read on.
    Over,
}
