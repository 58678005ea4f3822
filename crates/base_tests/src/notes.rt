//! Tests of `keyed_channel`: notes.

use crate::dealt::{dealt, known_ack, known_again, known_again_from, known_frame};
use keyed_channel::{Keys, Note, is_note, open_note, seal_ack, seal_again};
use ritas_base::FrameVersion;

#[test]
fn notes_by_their_first_byte(rt: HostRuntime) {
    assert!(rt; is_note(known_ack()) && !is_note(known_frame()));
}

// The next ones promise nothing, so that what calls them has a short proof.

// Whether replica 3 seals, for replica 1, what another program made.
fn are_sealed(keys: &Keys) -> bool {
    keys.n() > 1
        && seal_ack(keys, 1, 258).as_slice() == known_ack()
        && seal_again(keys, 1, 0).as_slice() == known_again()
        && seal_again(keys, 1, 258).as_slice() == known_again_from()
}

// What a note says to whoever has these keys.
fn said(keys: &Keys, bytes: &[u8]) -> Option<Note> {
    open_note(keys, bytes)
}

#[test]
fn notes_of_dealt_keys(rt: HostRuntime) {
    let one = dealt(&rt, 1);
    assert!(rt; are_sealed(&dealt(&rt, 3)));
    assert!(rt; said(&one, known_ack()) == Some(Note::Ack { from: 3, seq: 258 }));
    assert!(rt; said(&one, known_again()) == Some(Note::Again { from: 3, seq: 0 }));
}

// A note that asks from a number on is one in version 3 alone.
#[test]
fn notes_that_ask_from_a_number(rt: HostRuntime) {
    let asks = Some(Note::Again { from: 3, seq: 258 });
    assert!(rt; said(&dealt(&rt, 1), known_again_from()).is_none());
    let two = dealt(&rt, 1).with_version(FrameVersion::Two);
    assert!(rt; said(&two, known_again_from()).is_none());
    let three = dealt(&rt, 1).with_version(FrameVersion::Three);
    assert!(rt; said(&three, known_again_from()) == asks);
}
