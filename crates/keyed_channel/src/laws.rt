//! The laws of frames, notes, rows, entries and keys of epochs, for the layers above: what is sealed opens, and what opens
//! was sealed.

ghost use Rattle.keyed_channel.specs.Laws.{EntriesAgree, EntryByPair, NotedFromPeer, NotesAreNoFrames, NoteHasVersion, NotesOpen, NotesSealed, OpenedFromPeer, OpenedParts, OpensAsSealed, OpensSealed, SealedLength, SealedLong, SealedOpens};
ghost use Rattle.keyed_channel.specs.EpochLaws.{ChainNotedFromPeer, ChainNotesAreOthers, ChainNotesOpen, ChainNotesSealed, DealtShareKeys, EpochsShareKeys, EpochZeroKeepsKeys, RowsAreNoFrames, RowsFromPeer, RowsOpen, RowsWereSealed};

/// A law of both versions: what replica i seals for replica j, both with keys dealt from one master key, opens at j as from
/// i, with the same sequence number and body. The frame is as long as one that opens: the body has
/// at most `longest_body` (16,341) bytes, and with a `least_frame` of the overhead alone it may be empty.
///
/// It does nothing: its contract is the law.
pub fn sealed_opens()
    ensures { SealedOpens }
{}

/// A law of both versions: what opens at replica j, with keys dealt from a master key, is the very frame that its sender,
/// another replica, seals for j with that sequence number and body.
///
/// It does nothing: its contract is the law.
pub fn opens_sealed()
    ensures { OpensSealed }
{}

/// A law for every two rows of keys: where a sealed frame opens, it says its sender's number, its sequence number and
/// its body. Nothing is asked of the keys or of who is to receive it.
///
/// It does nothing: its contract is the law.
pub fn opens_as_sealed()
    ensures { OpensAsSealed }
{}

/// A law for every row of keys: what opens is as from another of the n replicas, and addressed to this one.
///
/// It does nothing: its contract is the law.
pub fn opened_from_peer()
    ensures { OpenedFromPeer }
{}

/// A law for every row of keys: what opens has at least `least_frame` (43) bytes, and says the sender, the number and the body that stand in it.
///
/// It does nothing: its contract is the law.
pub fn opened_parts()
    ensures { OpenedParts }
{}

/// A law: a frame has `frame_overhead` (43) bytes more than its body.
///
/// It does nothing: its contract is the law.
pub fn sealed_length()
    ensures { SealedLength }
{}

/// A law: the frame of a body of more than `longest_body` (16,341) bytes opens nowhere, as `Long`.
///
/// It does nothing: its contract is the law.
pub fn sealed_long()
    ensures { SealedLong }
{}

/// A law: with keys dealt from a master key, an entry is tagged under the key that its echoer and its verifier share.
///
/// It does nothing: its contract is the law.
pub fn entry_by_pair()
    ensures { EntryByPair }
{}

/// A law: two replicas with keys dealt from one master key tag an entry alike, wherever both may be asked for it.
///
/// It does nothing: its contract is the law.
pub fn entries_agree()
    ensures { EntriesAgree }
{}

/// A law: what replica i notes for replica j, both with keys dealt from one master key, says at j what i noted.
///
/// It does nothing: its contract is the law.
pub fn notes_open()
    ensures { NotesOpen }
{}

/// A law: what replica j opens as a note of replica i, both with keys dealt from one master key, is to the byte what i notes
/// for j, and i is another replica.
///
/// It does nothing: its contract is the law.
pub fn notes_sealed()
    ensures { NotesSealed }
{}

/// A law for every row of keys: what opens as a note is of another of the n replicas.
///
/// It does nothing: its contract is the law.
pub fn noted_from_peer()
    ensures { NotedFromPeer }
{}

/// A law for every row of keys: what begins as a note opens as no frame. It is too short or too long for one, or its first
/// byte is that of no version.
///
/// It does nothing: its contract is the law.
pub fn notes_are_no_frames()
    ensures { NotesAreNoFrames }
{}

/// A law for every two rows of keys: a note is no frame, since its first byte is that of no version.
///
/// It does nothing: its contract is the law.
pub fn note_has_version()
    ensures { NoteHasVersion }
{}

/// A law: two replicas whose keys were dealt from one master key share one.
///
/// It does nothing: its contract is the law.
pub fn dealt_share_keys()
    ensures { DealtShareKeys }
{}

/// A law for every row of keys: in epoch 0 the keys are the session's own.
///
/// It does nothing: its contract is the law.
pub fn epoch_zero_keeps_keys()
    ensures { EpochZeroKeepsKeys }
{}

/// A law: two replicas that share a key share one in each epoch, where each has a key for the other's number.
///
/// It does nothing: its contract is the law.
pub fn epochs_share_keys()
    ensures { EpochsShareKeys }
{}

/// A law for every two replicas that share a key: what one notes of a chain for the other says there what was noted.
///
/// It does nothing: its contract is the law.
pub fn chain_notes_open()
    ensures { ChainNotesOpen }
{}

/// A law for every two replicas that share a key: what one opens as a note of a chain from the other is, to the byte, what
/// the other notes.
///
/// It does nothing: its contract is the law.
pub fn chain_notes_sealed()
    ensures { ChainNotesSealed }
{}

/// A law for every row of keys: what opens as a note of a chain is of another of the n replicas.
///
/// It does nothing: its contract is the law.
pub fn chain_noted_from_peer()
    ensures { ChainNotedFromPeer }
{}

/// A law for every two rows of keys: what `open_note` reads says nothing to `open_chain_note`, and the other way round.
///
/// It does nothing: its contract is the law.
pub fn chain_notes_are_others()
    ensures { ChainNotesAreOthers }
{}

/// A law for every two replicas that share a key: what one seals as rows for the other opens there, as from it, with the same
/// position and body.
///
/// It does nothing: its contract is the law.
pub fn rows_open()
    ensures { RowsOpen }
{}

/// A law for every two replicas that share a key: what one opens as rows from the other is, to the byte, what the other seals.
/// The two aren't the same replica.
///
/// It does nothing: its contract is the law.
pub fn rows_were_sealed()
    ensures { RowsWereSealed }
{}

/// A law for every row of keys: rows that open begin with 0x52, and are addressed to this replica. They are from another of
/// the n replicas, and say the sender, the position and the body that stand in them.
///
/// It does nothing: its contract is the law.
pub fn rows_from_peer()
    ensures { RowsFromPeer }
{}

/// A law for every row of keys: what begins as rows opens as no frame, and says nothing as a note of either kind. As a frame
/// it is too short or too long, or its first byte is that of no version.
///
/// It does nothing: its contract is the law.
pub fn rows_are_no_frames()
    ensures { RowsAreNoFrames }
{}
