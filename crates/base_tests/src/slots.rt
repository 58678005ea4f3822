//! Tests of `ritas_base`: the bytes of a slot, and lists of texts.

use ritas_base::{Bytes, Mem, Slot, Texts};

#[test]
fn slots_of_commands(rt: HostRuntime) {
    assert!(rt; Slot::command(3, 258).bytes() == [1, 0, 0, 1, 2, 0, 0, 0, 3]);
}

// Texts, and a copy of them.
#[test]
fn texts(rt: HostRuntime) -> Result<(), Mem> {
    let mut texts = Texts::new(rt.alloc());
    texts.push(Bytes::from_slice(rt.alloc(), b"a")?)?;
    texts.push(Bytes::from_slice(rt.alloc(), b"")?)?;
    let copy = texts.copy(rt.alloc())?;
    assert!(rt; copy.len() == 2);
    assert!(rt; copy.get(0) == Some(&b"a"[..]));
    assert!(rt; copy.get(1) == Some(&b""[..]));
    assert!(rt; copy.get(2).is_none());
    Ok(())
}
