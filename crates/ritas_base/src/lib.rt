//! What every layer speaks of: the numbers of a session, slots, items and messages.
#![tactic(auto)]

mod bytes;
mod event;
mod id;
mod item;
mod laws;
mod limits;
mod mode;
mod params;
mod plan;
mod root_service;
mod sender_set;
mod slot;
mod tagger;
mod texts;
mod what;

pub use bytes::{Bytes, Mem};
pub use event::Event;
pub use id::Id;
pub use item::{Item, Kind, Msg, Say, To};
pub use laws::order_of_bytes;
pub use limits::{
    LEAST_REQUEST, LONGEST_FRAME, LONGEST_INPUT, LONGEST_PAYLOAD, NUMBER_LIMIT, REQUEST_FRONT,
    limits_are,
};
pub use mode::{FrameVersion, Mode, Vect};
pub use params::{ParamFault, Params};
pub use plan::{Attack, Order, Plan};
pub use root_service::RootService;
pub use sender_set::SenderSet;
pub use slot::{Slot, SlotFault};
pub use tagger::{Coin, Tagger};
pub use texts::Texts;
pub use what::{DriveWhat, What};
