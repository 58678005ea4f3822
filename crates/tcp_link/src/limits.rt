//! The limits of a link, each defined once in `specs/Limits.antt`. The longest frame is that of `ritas_base`.
ghost use Rattle.std.specs.Prelude.{◌≡◌};
ghost use Rattle.tcp_link.specs.Limits.{most_replicas, most_clients, most_at_once, most_strangers, spares_of_replica, spares_of_strangers, most_conns, most_serials, length_bytes, longest_piece, little_bytes, many_came, longest_read, many_kept, most_unwritten_bytes, most_unwritten_bytes_of_client, replicas_a_turn, clients_a_turn, clients_read_a_turn, messages_a_turn, most_events, most_writes, pause_microseconds, look_microseconds, first_wait_microseconds, longest_wait_microseconds, short_wait_microseconds, looks_of_dial, looks_of_node, looks_of_stranger, looks_of_peer, looks_of_half_closed, most_idle_ticks, most_ticks};

/// A session has at most so many replicas.
pub(crate) const MOST_REPLICAS: usize = 31;

/// So many clients are numbered, from 0 on, and then no more come in.
pub(crate) const MOST_CLIENTS: u32 = 4_294_967_295;

/// At most so many clients are there at a time.
pub(crate) const MOST_AT_ONCE: usize = 768;

/// One of a replica that told no number is closed once so many others came in after it.
pub(crate) const MOST_STRANGERS: usize = 64;

/// So many descriptors are held for each replica.
pub(crate) const SPARES_OF_REPLICA: usize = 2;

/// And so many for those that told no number yet.
pub(crate) const SPARES_OF_STRANGERS: usize = 8;

/// There are at most so many connections at a time. A token below is none of a connection.
pub(crate) const MOST_CONNS: usize = 16_777_216;

/// So many connections are made before one may have the token of an old one.
pub(crate) const MOST_SERIALS: usize = 1_000_000_000_000;

/// How many bytes tell the length of a piece.
pub(crate) const LENGTH_BYTES: usize = 2;

/// The most bytes of a piece, behind those of its length.
pub(crate) const LONGEST_PIECE: usize = 65_535;

/// A reply of a node with at most so many bytes tells nothing new: it is a piece of a log that has no rows.
pub(crate) const LITTLE_BYTES: usize = 6;

/// With so many bytes that came, there is a whole piece among them, and no more are read.
pub(crate) const MANY_CAME: usize = LENGTH_BYTES + LONGEST_PIECE;

/// A connection is read by so many bytes at a time.
pub(crate) const LONGEST_READ: usize = 2_048;

/// With so many bytes to go out, they are written before the link would wait.
pub(crate) const MANY_KEPT: usize = 65_536;

/// A connection with more bytes to go out takes no more.
pub(crate) const MOST_UNWRITTEN_BYTES: usize = 16_777_216;

/// And so does a client's.
pub(crate) const MOST_UNWRITTEN_BYTES_OF_CLIENT: usize = 131_072;

/// So many connections are accepted in one turn at a door for replicas.
pub(crate) const REPLICAS_A_TURN: usize = 64;

/// And so many at one for clients.
pub(crate) const CLIENTS_A_TURN: usize = 16;

/// So many clients are read in one turn at most.
pub(crate) const CLIENTS_READ_A_TURN: usize = 32;

/// And so many of them give a message.
pub(crate) const MESSAGES_A_TURN: usize = 16;

/// One wait takes at most so many events.
pub(crate) const MOST_EVENTS: usize = 1_024;

/// One connection is written to at most so often in a row.
pub(crate) const MOST_WRITES: u32 = 4_294_967_295;

/// What is tried again is due after so long.
pub(crate) const PAUSE_MICROSECONDS: u64 = 100_000;

/// A connection is looked at again after so long.
pub(crate) const LOOK_MICROSECONDS: u64 = 5_000_000;

/// How long the first of some quiet waits is.
pub(crate) const FIRST_WAIT_MICROSECONDS: u64 = 1_000;

/// And the longest.
pub(crate) const LONGEST_WAIT_MICROSECONDS: u64 = 32_000;

/// What a wait that an event ended counts, and each thing that is done.
pub(crate) const SHORT_WAIT_MICROSECONDS: u64 = 50;

/// After so many looks a connection ends that is being made with a peer.
pub(crate) const LOOKS_OF_DIAL: u8 = 1;

/// And one that is being made with a node.
pub(crate) const LOOKS_OF_NODE: u8 = 6;

/// And one that told no number.
pub(crate) const LOOKS_OF_STRANGER: u8 = 1;

/// And one of a peer that was sent something, after so many in a row between which nothing came.
pub(crate) const LOOKS_OF_PEER: u8 = 12;

/// And one of a client that sends no more.
pub(crate) const LOOKS_OF_HALF_CLOSED: u8 = 6;

/// One that is read to its end ends after so many ticks in a row in which nothing came.
pub(crate) const MOST_IDLE_TICKS: u8 = 10;

/// And after so many in all.
pub(crate) const MOST_TICKS: u8 = 50;

/// A law: these constants are what the definitions say.
///
/// It does nothing: its contract is the law.
pub fn limits_are()
    ensures replicas { MOST_REPLICAS ≡ most_replicas }
    ensures clients { MOST_CLIENTS ≡ most_clients }
    ensures at_once { MOST_AT_ONCE ≡ most_at_once }
    ensures strangers { MOST_STRANGERS ≡ most_strangers }
    ensures spares { SPARES_OF_REPLICA ≡ spares_of_replica }
    ensures stranger_spares { SPARES_OF_STRANGERS ≡ spares_of_strangers }
    ensures conns { MOST_CONNS ≡ most_conns }
    ensures serials { MOST_SERIALS ≡ most_serials }
    ensures piece_length { LENGTH_BYTES ≡ length_bytes }
    ensures piece { LONGEST_PIECE ≡ longest_piece }
    ensures little { LITTLE_BYTES ≡ little_bytes }
    ensures came { MANY_CAME ≡ many_came }
    ensures read { LONGEST_READ ≡ longest_read }
    ensures many { MANY_KEPT ≡ many_kept }
    ensures kept { MOST_UNWRITTEN_BYTES ≡ most_unwritten_bytes }
    ensures client_kept { MOST_UNWRITTEN_BYTES_OF_CLIENT ≡ most_unwritten_bytes_of_client }
    ensures replica_turn { REPLICAS_A_TURN ≡ replicas_a_turn }
    ensures client_turn { CLIENTS_A_TURN ≡ clients_a_turn }
    ensures client_reads { CLIENTS_READ_A_TURN ≡ clients_read_a_turn }
    ensures messages { MESSAGES_A_TURN ≡ messages_a_turn }
    ensures events { MOST_EVENTS ≡ most_events }
    ensures writes { MOST_WRITES ≡ most_writes }
    ensures pause { PAUSE_MICROSECONDS ≡ pause_microseconds }
    ensures look { LOOK_MICROSECONDS ≡ look_microseconds }
    ensures first_wait { FIRST_WAIT_MICROSECONDS ≡ first_wait_microseconds }
    ensures longest_wait { LONGEST_WAIT_MICROSECONDS ≡ longest_wait_microseconds }
    ensures short_wait { SHORT_WAIT_MICROSECONDS ≡ short_wait_microseconds }
    ensures dial { LOOKS_OF_DIAL ≡ looks_of_dial }
    ensures node { LOOKS_OF_NODE ≡ looks_of_node }
    ensures stranger { LOOKS_OF_STRANGER ≡ looks_of_stranger }
    ensures peer { LOOKS_OF_PEER ≡ looks_of_peer }
    ensures half_closed { LOOKS_OF_HALF_CLOSED ≡ looks_of_half_closed }
    ensures idle { MOST_IDLE_TICKS ≡ most_idle_ticks }
    ensures ticks { MOST_TICKS ≡ most_ticks }
{}
