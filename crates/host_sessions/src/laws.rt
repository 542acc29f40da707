//! A law of hosts, about the definitions alone. The function's body is empty: the contract is all there is.
ghost use Rattle.host_sessions.specs.Own.{ConnectKeepsOwn, DisconnectKeepsOwn, EmptyHasOwn, EndEmptyKeepsOwn, EndKeepsOwn, ReceiveKeepsOwn, TakeBackKeepsOwn};

/// *Each session's client is its own*: no two sessions that have begun have the same client. It is so in a host without sessions, and
/// each call keeps it so. So what a call spares of every other client, it spares of every other session.
pub fn clients_law()
    ensures empty { EmptyHasOwn }
    ensures connects { ConnectKeepsOwn }
    ensures receives { ReceiveKeepsOwn }
    ensures takes_back { TakeBackKeepsOwn }
    ensures disconnects { DisconnectKeepsOwn }
    ensures ends { EndKeepsOwn }
    ensures ends_empty { EndEmptyKeepsOwn }
{}
