//! The laws of what a replica makes: how many frames for whom, and that peers are isolated from each other.

ghost use Rattle.replica.specs.Laws.{MadeByEntry, MadeInAll, MadeLength};
ghost use Rattle.replica.specs.Isolation.{Isolates, OwnJoin, UnopenedIsNothing, Confines};

/// A law: the frames that an entry makes for another replica are those for it among the frames that go out by the entry.
///
/// It does nothing: its contract is the law.
pub fn made_by_entry()
    ensures { MadeByEntry }
{}

/// A law: as many frames were made for a receiver as were counted for it.
///
/// It does nothing: its contract is the law.
pub fn made_length()
    ensures { MadeLength }
{}

/// A law: an entry makes as many frames as go out by it.
///
/// It does nothing: its contract is the law.
pub fn made_in_all()
    ensures { MadeInAll }
{}

/// A law: peers are isolated from each other. What a frame is answered, the frames that it makes and the items that the replica
/// sends itself by it are the same in any two states of one history in which the same items are held for its sender, both live
/// or both stopped. These items come behind what waits, and only then come held items of whatever peers that it opens. A frame
/// that doesn't open changes nothing, and one that isn't taken leaves the history, what waits, and what is held for every other
/// peer.
///
/// It does nothing: its contract is the law.
pub fn isolation()
    ensures isolates { Isolates }
    ensures joins { OwnJoin }
    ensures unopened { UnopenedIsNothing }
    ensures confines { Confines }
{}
