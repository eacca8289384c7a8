//! What a client does at the moment.

/// What a client does at the moment: the first of these that holds.
#[derive(Clone, Copy)]
pub enum Standing {
    /// All is sent behind a closing reply, and the close lingers.
    Lingers,
    /// There is something for it to take.
    HasOutput,
    /// It waits for a value, or for room in the queue of jobs.
    Waits,
    /// Something was reported of it, or came for it, that is for its next turn.
    IsReady,
    /// It is waited for.
    Idle,
}
