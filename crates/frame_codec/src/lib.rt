//! Bodies of messages, the values in them, and inputs, as bytes.
//!
//! ```rust
//! use frame_codec::{read_body, write_body};
//! use ritas_base::{Kind, Mode, Params, Vect};
//!
//! // INIT of "a" at the first command slot of replica 0, in root service 1
//! let body = b"\x01\x01\0\0\0\0\0\0\0\0a";
//! let p = Params::new(4, 1)?;
//! let mode = Mode::new(1, Vect::Echo).ok_or("no mode")?;
//! let item = read_body(alloc, &p, &mode, 0, body)?;
//! assert!(rt; item.kind == Kind::Init && item.slot.class == 1);
//! assert_eq!(rt; item.value.as_slice(), b"a".as_slice());
//! assert_eq!(rt; write_body(alloc, &item)?.as_slice(), body.as_slice());
//! ```
//!
//! A body is the kind of a message (1 byte), its slot (9 bytes) and a payload. All numbers are big-endian. A mask is 4
//! bytes, and its bit k stands for replica k.
//!
//! The kinds go by the session's frame version, which the `Mode` has. A digest is 32 bytes, any ones. In version 3 slots of
//! class 5 are as in version 1, and all others as in version 2.
//!
//! | Byte | Kind | Broadcast | Payload in version 1 | In version 2 |
//! |---|---|---|---|---|
//! | 1 | INIT | reliable | the slot's value | the slot's value |
//! | 2, 3 | ECHO, READY | reliable | the slot's value | a digest |
//! | 4 | SEND | echo | the slot's value | the slot's value |
//! | 5 | HASHES | echo | n entries of 32 bytes | the same |
//! | 6 | COLUMN | echo | a mask that isn't 0, with bits below n alone, and 32 bytes for each of its bits, ascending | the same |
//! | 7 | WANT | reliable | no such kind | a digest |
//! | 8 | VALUE | reliable | no such kind | the slot's value |
//!
//! | Class | Root service | Value |
//! |---|---|---|
//! | 1 | 1, 2 | 1 to `LONGEST_INPUT` (4,096) bytes |
//! | 1 | 6, 7 | `LEAST_REQUEST` (8) to `LONGEST_INPUT` (4,096) bytes, which begin with the client's and the request's number |
//! | 2 | 5 | 1 to `LONGEST_ENTRY` (512) bytes |
//! | 2 | 6, 7 | identifier list |
//! | 3 | 4 | 1 to `LONGEST_INPUT` (4,096) bytes |
//! | 3 | 5, 6 | vector |
//! | 3 | 7 | identifier list, which may have no identifier, and any number of its 64 with one origin |
//! | 4 | 4 to 7 | VECT |
//! | 5 | 3 to 7 | one byte: 0 or 1 in steps 1 and 2; 0, 1 or 2 in step 3 |
//!
//! - Identifier list: 1 to `MOST_IDS` (64) identifiers of 5 bytes, an origin (1 byte, below n) and a number (4 bytes, below
//!   `NUMBER_LIMIT`, 1,000,000), strictly ascending, at most floor(64 / n) with one origin. Of bytes whose length is no
//!   multiple of 5, the last identifier isn't whole.
//! - Vector: a mask of at least n - f replicas, and for each of them, ascending, a length (2 bytes) and that many bytes,
//!   which are a class 2 value of the root service.
//! - VECT: no bytes for none, and otherwise a mask of at least n - 2f replicas and a class 3 value of the root service.
//!
//! [`read_body`] answers an item exactly where the bytes are that item's one spelling, which [`write_body`] writes; it
//! answers the first fault from the left, with its offset, exactly where there is no such item.
//!
//! The messages are those of Moniz, Neves, Correia and Veríssimo, "RITAS: Services for Randomized Intrusion Tolerance"
//! (2011), over the reliable broadcast of Bracha, "Asynchronous Byzantine Agreement Protocols" (1987). Their bytes are
//! this project's own.
#![tactic(auto)]

mod body_laws;
mod fault;
mod fields;
mod ids;
mod inputs;
mod laws;
mod limits;
mod payload;
mod reading;
mod values;
mod writing;

pub use body_laws::{body_faults, input_is_value, right_input, same_value, spelled};
pub use fault::BodyFault;
pub use inputs::input_fault;
pub use laws::{
    any_list_law, class2_is_short, column_law, list_law, place_law, vect_law, vector_law,
};
pub use limits::{LONGEST_ENTRY, MOST_IDS, limits_are};
pub use reading::read_body;
pub use values::{column_entry, id_at, ids_have, vect_parts, vector_entry};
pub use writing::{body_len, write_body, write_column, write_ids, write_vect, write_vector};
