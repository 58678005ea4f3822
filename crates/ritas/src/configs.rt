//! The jobs that read a configuration.
ghost use Rattle.std.specs.Prelude.{◌≡◌, ◌≢◌, ◌≤◌, length, true, false};
ghost use Rattle.ritas_base.specs.declared.what.What.{What};
ghost use Rattle.ritas_base.specs.declared.what.DriveWhat.{DriveWhat};
ghost use Rattle.node_loop.specs.Outs.{outs_of, tells_of};
ghost use Rattle.node_session.specs.Lives.{disk_seen};
ghost use Rattle.ritas.specs.Configs.{AnswersConfig, AnswersJob, DrivesPlan, FitsConfig, IsDrive, TakesText};
ghost use Rattle.schedule_replay.specs.Replay.{CountsIf};
ghost use Rattle.ritas.specs.Run.{Ends, LeavesLink, Runs, is_linked};
ghost use Rattle.ritas.specs.Statuses.{text_limit};

use crate::drives::make;
use crate::host::Host;
use crate::keys::run_keys;
use crate::refusals::{refuse_config, refuse_text};
use crate::requests::run_submit;
use crate::sessions::{run_cluster, run_node};
use crate::watches::run_watch;
use cluster_config::{Config, Job, config_ranges, read_config};
use outside::{Disk, Link, Sink, Source, read_whole};
use ritas_base::Plan;
use std::alloc::Global;
use std::net::Net;
use std::sync::Wait;

/// A configuration has at most so many bytes (`text_limit`).
pub(crate) const TEXT_LIMIT: usize = 1_048_576;

// Makes the schedule of a plan.
fn drive_plan<K: Sink>(alloc: Global, job: Job, plan: &Plan, output: &mut K) -> u8
    requires drives { IsDrive job }
    ensures ends { Ends K.faults output.old output.new result }
    ensures others { (result ≢ 2) × (result ≢ 4) × (result ≢ 6) }
    ensures nine { result ≢ 9 }
    ensures answers { DrivesPlan K.tells K.taken output.old output.new result job plan.now }
{
    match job {
        Job::Drive(what) => make(alloc, plan, output, what),
        Job::Replay(_) | Job::Keys | Job::Node | Job::Cluster | Job::Submit | Job::Watch => {
            unreachable!()
        }
    }
}

// Does the job of a configuration.
fn do_config<R: Net + Wait, K: Sink, L: Link, D: Disk>(
    host: &Host<R>,
    job: Job,
    config: Config,
    output: &mut K,
    link: &mut L,
    disk: &mut D,
) -> u8
    requires fits { FitsConfig job config }
    ensures runs { Runs K.faults output.old output.new (L.faults link.old) (L.faults link.new) result }
    ensures others { result ≢ 4 }
    ensures disk_counts { CountsIf (D.faults disk.old) (D.faults disk.new) (result ≡ 9) }
    ensures undisked { job ≢ Job.Node → disk.new ≡ disk.old }
    ensures answers { AnswersConfig (tells_of K.Sink L.Link) K.taken output.old output.new
        (outs_of K.Sink L.Link output.old link.old)
        (outs_of K.Sink L.Link output.new link.new)
        (disk_seen D.Disk disk.old disk.new) (LeavesLink link.old link.new result) (disk.new ≡ disk.old) result job config }
{
    match config {
        Config::Drive(plan) => drive_plan(host.alloc, job, &plan, output),
        Config::Keys(keys) => run_keys(host.alloc, &keys, output),
        Config::Node(node) => run_node(host.rt, host.alloc, node, output, link, disk),
        Config::Cluster(cluster) => run_cluster(host.rt, host.alloc, cluster, output, link),
        Config::Submit(submit) => run_submit(host.rt, host.alloc, &submit, output, link),
        Config::Watch(watch) => run_watch(host.rt, host.alloc, &watch, output, link),
    }
}

// Does the job of the configuration that a text says, or writes the line of its first fault.
fn do_text<R: Net + Wait, K: Sink, L: Link, D: Disk>(
    host: &Host<R>,
    job: Job,
    text: &[u8],
    output: &mut K,
    link: &mut L,
    disk: &mut D,
) -> u8
    requires job { (what : What) → job ≢ Job.Replay what }
    requires within { length text.now ≤ text_limit }
    ensures runs { Runs K.faults output.old output.new (L.faults link.old) (L.faults link.new) result }
    ensures others { result ≢ 4 }
    ensures disk_counts { CountsIf (D.faults disk.old) (D.faults disk.new) (result ≡ 9) }
    ensures undisked { job ≢ Job.Node → disk.new ≡ disk.old }
    ensures answers { AnswersJob (tells_of K.Sink L.Link) K.taken output.old output.new
        (outs_of K.Sink L.Link output.old link.old)
        (outs_of K.Sink L.Link output.new link.new)
        (disk_seen D.Disk disk.old disk.new) (LeavesLink link.old link.new result) (disk.new ≡ disk.old) result text.now job }
    ensures unlinked { is_linked job ≡ false → LeavesLink link.old link.new result }
    ensures undriven { (what : DriveWhat) → job ≡ Job.Drive what → result ≡ 8 → output.new ≡ output.old }
{
    config_ranges();
    match read_config(host.alloc, job, text) {
        Ok(config) => do_config(host, job, config, output, link, disk),
        Err(fault) => refuse_config(host.alloc, output, fault),
    }
}

/// Does the job of the configuration that the input says, or writes the line of its first fault.
pub(crate) fn do_read<R: Net + Wait, S: Source, K: Sink, L: Link, D: Disk>(
    host: &Host<R>,
    job: Job,
    input: &mut S,
    output: &mut K,
    link: &mut L,
    disk: &mut D,
) -> u8
    requires job { (what : What) → job ≢ Job.Replay what }
    ensures runs { Runs K.faults output.old output.new (L.faults link.old) (L.faults link.new) result }
    ensures input_counts { CountsIf (S.faults input.old) (S.faults input.new) (result ≡ 4) }
    ensures taken { S.tells ≡ true → TakesText (S.left input.old) (S.left input.new) result }
    ensures disk_counts { CountsIf (D.faults disk.old) (D.faults disk.new) (result ≡ 9) }
    ensures undisked { job ≢ Job.Node → disk.new ≡ disk.old }
    ensures answers { S.tells ≡ true → AnswersJob (tells_of K.Sink L.Link) K.taken output.old output.new
        (outs_of K.Sink L.Link output.old link.old)
        (outs_of K.Sink L.Link output.new link.new)
        (disk_seen D.Disk disk.old disk.new) (LeavesLink link.old link.new result) (disk.new ≡ disk.old) result (S.left input.old) job }
    ensures unlinked { is_linked job ≡ false → LeavesLink link.old link.new result }
    ensures undriven { (what : DriveWhat) → job ≡ Job.Drive what → result ≡ 8 → output.new ≡ output.old }
{
    match read_whole(host.alloc, input, TEXT_LIMIT) {
        Ok(text) => do_text(host, job, text.as_slice(), output, link, disk),
        Err(fault) => refuse_text(host.alloc, output, fault),
    }
}
