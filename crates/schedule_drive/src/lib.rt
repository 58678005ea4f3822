//! Makes the schedule of a plan, honest or hostile, from nothing but its numbers.
//!
//! ```rust
//! use outside::Buffer;
//! use ritas_base::{Attack, DriveWhat, Mode, Order, Params, Plan, Vect};
//! use schedule_drive::{DriveEnd, drive};
//! use world_model::Audit;
//!
//! let plan = Plan {
//!     session: 7,
//!     p: Params::new(4, 1)?,
//!     mode: Mode::new(6, Vect::Echo).ok_or("no mode")?,
//!     master: [7; 32],
//!     order: Order::Random,
//!     attack: Attack::TwoFace,
//!     start_number: 1,
//!     commands: 3,
//!     copies: 2,
//! };
//! // the logs of the three correct replicas, and whether the audit holds
//! let mut report = Buffer::new(alloc);
//! let end = drive(alloc, &plan, &mut report, DriveWhat::Report);
//! assert_eq!(rt; end, DriveEnd::Done(Audit::Holds));
//! ```
//!
//! `schedule_plan` says which schedule a plan means. `drive` takes its steps on a stage (`schedule_stage`): first the inputs, and
//! then sweeps, or steps that are drawn one by one; and it writes the report of the world that came of them, or the schedule's
//! file.
#![tactic(auto)]

mod driving;
mod end;
mod garbage;
mod inputs;
mod lane;
mod laws;
mod making;
mod picker;
mod picks;
mod players;
mod row;
mod runs;
mod sender;
mod sweeps;

pub use driving::drive;
pub use end::DriveEnd;
