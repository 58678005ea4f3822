//! The laws of messages, for clients: a position that f + 1 replicas give is true, and what is written is read.

ghost use Rattle.client_port.specs.Laws.{PositionLaw, RequestIsRead, RequestWasWritten, PositionIsRead, RefusalIsRead, QueryIsRead, QueryWasWritten, QueryIsNoRequest};

/// A law: let at least n - f of n replicas give no other position than that at which the request stands in their own
/// log. Then a position that `Votes::reply` answers is that of the request in the log of one of them, whatever the
/// others send.
///
/// It does nothing: its contract is the law.
pub fn position_is_true()
    ensures { PositionLaw }
{}

/// The laws of requests: one that is written, with a payload of at most `longest_payload` (4,088) bytes, is read as it was, and what is read
/// was written so.
///
/// It does nothing: its contract is the law.
pub fn requests_are_read()
    ensures read { RequestIsRead }
    ensures written { RequestWasWritten }
{}

/// The laws of replies: the position that `write_reply` writes is counted as this position, where its replica gave none
/// before; the refusal that `write_refusal` writes is answered with its number, and isn't counted.
///
/// It does nothing: its contract is the law.
pub fn replies_are_read()
    ensures position { PositionIsRead }
    ensures refusal { RefusalIsRead }
{}

/// The laws of queries: one that is written is read as it was, and what is read was written so. No query is a request.
///
/// It does nothing: its contract is the law.
pub fn queries_are_read()
    ensures read { QueryIsRead }
    ensures written { QueryWasWritten }
    ensures no_request { QueryIsNoRequest }
{}
