//! The configuration of a job.
ghost use Rattle.std.specs.Prelude.{◌≡◌, ◌≢◌};
ghost use Rattle.ritas_base.specs.declared.what.What.{What};
ghost use Rattle.ritas_base.specs.declared.what.DriveWhat.{DriveWhat};
ghost use Rattle.cluster_config.specs.declared.config.ConfigFault.TheVariants as faults;
ghost use Rattle.cluster_config.specs.Config.{AnswersDrive, AnswersKeys, AnswersNode, AnswersCluster, AnswersSubmit, AnswersWatch};

use crate::cluster::{ClusterConfig, read_cluster};
use crate::drive::read_drive;
use crate::job::Job;
use crate::keys::{KeysConfig, read_keys};
use crate::lines::WrongLine;
use crate::node::{NodeConfig, read_node};
use crate::submit::{SubmitConfig, read_submit};
use crate::watch::{WatchConfig, read_watch};
use ritas_base::{Mem, Plan};
use std::alloc::Global;

/// What a configuration says.
#[derive(Debug, Drop)]
pub enum Config {
    /// The schedule that is to be made.
    Drive(Plan),
    /// The keys that are to be dealt.
    Keys(KeysConfig),
    /// The replica that is to be run.
    Node(NodeConfig),
    /// All replicas of a session, which are to be run.
    Cluster(ClusterConfig),
    /// The request that is to be handed in.
    Submit(SubmitConfig),
    /// The log that is to be watched.
    Watch(WatchConfig),
}

/// Why a text is no configuration.
#[derive(Clone, Copy, Debug, PartialEq, Eq)]
pub enum ConfigFault {
    /// The number, from 1, of the first line that is wrong or missing. A missing line has the number that it would have.
    Line(u32),
    /// There was not enough memory. It comes only where the text is right.
    Mem,
}

impl From<WrongLine> for ConfigFault {
    ghost from_gives = { λ wrong fault. fault ≡ faults.Line wrong.line };

    fn from(wrong: WrongLine) -> ConfigFault {
        ConfigFault::Line(wrong.line)
    }
}

impl From<Mem> for ConfigFault {
    ghost from_gives = { λ _ fault. fault ≡ faults.Mem };

    fn from(_: Mem) -> ConfigFault {
        ConfigFault::Mem
    }
}

/// What the configuration text of a job says, or its first line that is wrong or missing. `Replay` reads none.
///
/// The text is looked at to its end before memory is taken.
pub fn read_config(alloc: Global, job: Job, text: &[u8]) -> Result<Config, ConfigFault>
    requires { (what : What) → job ≢ Job.Replay what }

    // The plan that the text says, or its first wrong line. No memory is taken, so `Mem` isn't answered; nor is it for keys.
    ensures drive { (what : DriveWhat) → job ≡ Job.Drive what → AnswersDrive text.now result }
    ensures keys { job ≡ Job.Keys → AnswersKeys text.now result }

    // What the text says, or its first wrong line; or `Mem`, and then the text is right.
    ensures node { job ≡ Job.Node → AnswersNode text.now result }
    ensures cluster { job ≡ Job.Cluster → AnswersCluster text.now result }
    ensures submit { job ≡ Job.Submit → AnswersSubmit text.now result }
    ensures watch { job ≡ Job.Watch → AnswersWatch text.now result }
{
    match job {
        Job::Replay(_) => unreachable!(),
        Job::Drive(_) => Ok(Config::Drive(read_drive(text)?)),
        Job::Keys => Ok(Config::Keys(read_keys(text)?)),
        Job::Node => Ok(Config::Node(read_node(alloc, text)?)),
        Job::Cluster => Ok(Config::Cluster(read_cluster(alloc, text)?)),
        Job::Submit => Ok(Config::Submit(read_submit(alloc, text)?)),
        Job::Watch => Ok(Config::Watch(read_watch(alloc, text)?)),
    }
}
