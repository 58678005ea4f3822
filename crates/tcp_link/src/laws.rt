//! The laws of what a link decides: the order in which it gives, pauses, tokens, and connections that are over.

ghost use Rattle.tcp_link.specs.Queues.{NewsFirst, FramesInOrder, MessagesInOrder};
ghost use Rattle.tcp_link.specs.Stages.{OverStays, BrokenStays};
ghost use Rattle.tcp_link.specs.Tokens.{PairLaw, TokenLaw};
ghost use Rattle.tcp_link.specs.Waits.{PauseEnds, PauseIsShown, ShownIsCounted};

/// The order in which a link gives what came before its next turn: news, then all frames connection by connection, then one
/// message of each client. What comes next is the first of all that is given, and the rest follows in the same order.
///
/// It does nothing: its contract is the law.
pub fn gives_in_order()
    ensures news { NewsFirst }
    ensures frames { FramesInOrder }
    ensures messages { MessagesInOrder }
{}

/// What is tried again comes. Where no clock can be read, it is due after 2,000 waits (`waits_of_pause`) at the latest, however they
/// end. Where one is read after each wait, what it shows is what is counted, and so it is due as soon as the clock shows that a
/// pause passed, and no sooner, whatever the link had to do meanwhile.
///
/// It does nothing: its contract is the law.
pub fn pause_ends()
    ensures unread { PauseEnds }
    ensures counted { ShownIsCounted }
    ensures shown { PauseIsShown }
{}

/// Two connections have one token only if they stand at one place with one serial number, no connection has the number of a door,
/// and no two pairs of replicas are noted at one place.
///
/// It does nothing: its contract is the law.
pub fn tokens_are_apart()
    ensures tokens { TokenLaw }
    ensures pairs { PairLaw }
{}

/// A connection that is over stays over, and one that takes no more bytes never takes any again.
///
/// It does nothing: its contract is the law.
pub fn over_stays()
    ensures over { OverStays }
    ensures broken { BrokenStays }
{}
