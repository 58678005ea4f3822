//! The stage on which the players of a plan take their steps, correct replicas and faces of faulty ones.
//!
//! `schedule_plan` says who the players of a plan are and what comes of their steps. A `Stage` has them: the correct replicas
//! are a world, whose events are those of the schedule, and so are the faces of each letter, where they stand in the place of
//! their faulty replicas. What a step tells a player is given to its world, and a frame of a face that exchanges bits is
//! sealed anew. The stage counts the steps and the bytes of the schedule's file, and takes no step that passes a limit.
//!
//! `IsStage` says that a stage stands for a list of steps, and each of its calls which steps it then stands for.
#![tactic(auto)]

mod faces;
mod first;
mod flip;
mod frames;
mod halt;
mod stage;
mod tape;

pub use halt::Halt;
pub use stage::{Finished, Stage};
