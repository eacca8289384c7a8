//! How a connection ends.
//!
//! It stands on nothing, and promises nothing: what an end says is in the contracts of those that give it.

/// Why a connection ended. Where several causes apply, `WriteFault` comes first, then `Memory`, then `Worn`, and then
/// what stopped the reader.
#[derive(Clone, Copy, Debug, PartialEq, Eq)]
pub enum End {
    /// Everything was answered: a reply closed, or the end was told between two heads.
    Clean,
    /// The end was told inside a head.
    Cut,
    /// A read failed.
    ReadFault,
    /// A write failed. What was written may end inside a reply.
    WriteFault,
    /// Memory was refused.
    Memory,
    /// Another read was needed, and all reads were made.
    Spent,
    /// The numbers of fills or asks were used up.
    Worn,
}
