//! Laws of the wishes of a text and of the replies to them, each the contract of a function that does nothing.
ghost use Rattle.peer_wish.specs.Laws.{HasOneListOfWishes, HasListOfWishes, BeginsWithFirst, KeepsWishes, EndsWithClosing, RepliesAgree};

/// A text has one list of wishes at most.
pub fn has_one_list_of_wishes()
    ensures { HasOneListOfWishes }
{}

/// And it has one, where fewer wishes than a connection may have stand before it.
pub fn has_list_of_wishes()
    ensures { HasListOfWishes }
{}

/// The list of wishes of a text begins with any first wishes of it.
pub fn begins_with_first()
    ensures { BeginsWithFirst }
{}

/// More bytes only add wishes.
pub fn keeps_wishes()
    ensures { KeepsWishes }
{}

/// Nothing follows a closing reply.
pub fn ends_with_closing()
    ensures { EndsWithClosing }
{}

/// Replies under a source with one answer for each group and key differ in their number alone.
pub fn replies_agree()
    ensures { RepliesAgree }
{}
