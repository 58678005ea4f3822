//! What a client may rely on.
ghost use Rattle.request_submit.specs.Laws.{OneOfLogs};

/// A law: let at least n - f of n nodes reply no other position than that at which the request stands in their own log. Then a
/// position with which `submit` ends is that of the request in the log of one of them, whatever the others send.
///
/// It does nothing: its contract is the law.
pub fn position_is_one_of_logs()
    ensures one { OneOfLogs }
{
    client_port::position_is_true();
}
