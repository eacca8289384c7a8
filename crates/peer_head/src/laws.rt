//! Laws of blocks, heads and looks, each the contract of a function that does nothing.
//!
//! They are about the definitions alone, for whoever reads a stream head by head.
ghost use Rattle.peer_head.specs.Laws.{BeginsOnce, KeepsBlock, LeavesLess, StaysTooLong, IsOneHead, LooksOneWay, LooksSomeWay, TakesAnyTarget};

/// A text begins with at most one block.
pub fn begins_once()
    ensures { BeginsOnce }
{}

/// More bytes keep the first block.
pub fn keeps_block()
    ensures { KeepsBlock }
{}

/// What follows a block is shorter than the text.
pub fn leaves_less()
    ensures { LeavesLess }
{}

/// More bytes make no block of what is too long.
pub fn stays_too_long()
    ensures { StaysTooLong }
{}

/// A block is at most one head.
pub fn is_one_head()
    ensures { IsOneHead }
{}

/// A text looks one way only.
pub fn looks_one_way()
    ensures { LooksOneWay }
{}

/// Each text looks some way.
pub fn looks_some_way()
    ensures { LooksSomeWay }
{}

/// What stands around the target of a head is a head around any other visible target, with that target.
pub fn takes_any_target()
    ensures { TakesAnyTarget }
{}
