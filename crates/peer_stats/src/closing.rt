//! Why a connection ended.

/// Why a connection ended: the kinds that are counted apart.
#[derive(Clone, Copy, Debug, PartialEq, Eq)]
pub enum Closing {
    /// The client ended or broke it.
    Client,
    /// Its last reply was sent.
    Reply,
    /// It neither sent nor took anything for too long.
    Silent,
    /// It took nothing of its replies for too long.
    Slow,
    /// No more connections could be had.
    Crowded,
    /// Memory was refused.
    Memory,
    /// The server ends.
    End,
}
