//! What a plan means: the schedule that its players, honest and hostile, make by their steps.
//!
//! A plan (`ritas_base::Plan`) names a session, an order and an attack. `specs/Plans.antt` says who its players are, correct replicas
//! and faces of faulty ones, and between which of them frames go; `Inputs.antt` and `Garbage.antt` what is given and thrown;
//! `Sweeps.antt` and `Picks.antt` in which order steps are taken; and `Schedule.antt` which schedule that is, and which limits it may
//! meet. `schedule w p` is the list of its steps in the world w, and `events_by` the events of the schedule file, whose header
//! `header_of` makes.
//!
//! `drive_forges_nothing` says that no event of such a schedule forges, whatever the plan: so its audit holds, or two hashes
//! collide. `copies_go_apart` says that no correct replica is given a command twice, and `schedule_is_whole` that more sweeps or
//! picks than a schedule may have steps would change nothing.
#![tactic(auto)]

mod header;
mod laws;

pub use header::{correct_of, header_of};
pub use laws::{copies_go_apart, drive_forges_nothing, schedule_is_whole};
