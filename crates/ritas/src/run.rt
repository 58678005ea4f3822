//! What a run does, and the status that it ends with.
ghost use Rattle.std.specs.Prelude.{◌≡◌, ◌≢◌, ◌⊎◌, ◌≤◌, ◌↔◌, false, true, List, [], map, length, Some, None, Ok, string_bytes, codes};
ghost use Rattle.ritas_base.specs.declared.event.Event.{Event};
ghost use Rattle.ritas_base.specs.Members.{has_member};
ghost use Rattle.schedule_file.specs.declared.fault.FileFault.TheVariants.{Read};
ghost use Rattle.schedule_file.specs.declared.header.Header.{Header};
ghost use Rattle.schedule_file.specs.FileBytes.{is_outside};
ghost use Rattle.schedule_file.specs.ReadHeader.{heading};
ghost use Rattle.ritas_base.specs.Bytes.{IsBytes};
ghost use Rattle.schedule_file.specs.Schedule.{file_of};
ghost use Rattle.schedule_file.specs.Spelling.{IsFile};
ghost use Rattle.world_model.specs.Agree.{Agree};
ghost use Rattle.ritas_base.specs.declared.what.What.{What};
ghost use Rattle.ritas_base.specs.declared.what.What.TheVariants.{Frames, Vectors};
ghost use Rattle.ritas_base.specs.declared.what.DriveWhat.{DriveWhat};
ghost use Rattle.ritas_base.specs.declared.plan.Plan.{Plan};
ghost use Rattle.cluster_config.specs.declared.job.Job.{Job};
ghost use Rattle.cluster_config.specs.Columns.{IsText};
ghost use Rattle.cluster_config.specs.Drive.{drive_column, planned};
ghost use Rattle.cluster_config.specs.Words.{job_of};
ghost use Rattle.schedule_replay.specs.Layers.{setting_of};
ghost use Rattle.schedule_replay.specs.Replay.{CountsIf, text, has_text, asked_of};
ghost use Rattle.schedule_replay.specs.Vectors.{vectors_text, VectorsAgree};
ghost use Rattle.cluster_config.specs.declared.cluster.ClusterConfig.{ClusterConfig};
ghost use Rattle.cluster_config.specs.declared.node.NodeConfig.{NodeConfig};
ghost use Rattle.cluster_config.specs.Cluster.{cluster_column, cluster_text};
ghost use Rattle.cluster_config.specs.Node.{node_column, node_text};
ghost use Rattle.node_loop.specs.Outs.{outs_of, tells_of};
ghost use Rattle.node_session.specs.Configs.{node_session, cluster_session};
ghost use Rattle.ritas.specs.Run.{Asks, IsReplay, is_linked, IsStatus, IsOwnStatus, LinkCounts, LeavesLink, Ends, Replays, Runs, Replies, AnswersFile, WroteVectors};
ghost use Rattle.node_session.specs.Lives.{disk_seen};
ghost use Rattle.ritas.specs.Configs.{AnswersJob, HasLived, HasServed, TakesText};
ghost use Rattle.ritas.specs.Drives.{AnswersPlan};
ghost use Rattle.ritas.specs.Statuses.{usage, text_limit, status_of, input_line, fault_text, fault_status};

use crate::configs::do_read;
use crate::host::Host;
use crate::lines::{audit_status, fault_status, fault_text};
use cluster_config::{Job, WordsFault, config_laws, read_words};
use outside::{Disk, Link, Sink, Source, write_all};
use ritas_base::What;
use schedule_file::{FileFault, file_laws};
use schedule_replay::{ReplayEnd, replay};
use std::alloc::Global;
use std::net::Net;
use std::sync::Wait;

const USAGE: &[u8] =
    b"usage: ritas replay report|frames|vectors, drive report|schedule, keys, node, cluster, submit, watch\n";

/// Writes a text and gives a status, or 5 where the output failed.
pub(crate) fn finish<K: Sink>(output: &mut K, text: &[u8], status: u8) -> u8
    requires listed { IsStatus status }
    requires own { IsOwnStatus status }
    ensures ends { Ends K.faults output.old output.new result }
    ensures replies { Replies K.tells K.taken output.old output.new result status text.now }
    ensures either { (result ≡ status) ⊎ (result ≡ 5) }
{
    match write_all(output, text) {
        Ok(()) => status,
        Err(_) => 5,
    }
}

// Writes the line of a file's fault, which is none of the source or of memory.
fn refuse<K: Sink>(alloc: Global, output: &mut K, fault: FileFault) -> u8
    requires inside { is_outside fault ≡ false }
    ensures ends { Ends K.faults output.old output.new result }
    ensures replies { Replies K.tells K.taken output.old output.new result (fault_status fault) (fault_text fault) }
    ensures others { (result ≢ 0) × (result ≢ 1) × (result ≢ 2) × (result ≢ 4) × (result ≢ 6) }
    ensures nine { result ≢ 9 }
    ensures wanting { result ≡ 8 → output.new ≡ output.old }
{
    match fault_text(alloc, fault) {
        Ok(text) => finish(output, text.as_bytes(), fault_status(fault)),
        Err(_) => 8,
    }
}

// Writes the line of a file's fault, unless it is one of the source or of memory.
fn give_up<K: Sink>(alloc: Global, output: &mut K, fault: FileFault) -> u8
    ensures ends { Ends K.faults output.old output.new result }
    ensures replies { Replies K.tells K.taken output.old output.new result (fault_status fault) (fault_text fault) }
    ensures read { (result ≡ 4) ↔ (fault ≡ Read) }
    ensures others { (result ≢ 0) × (result ≢ 1) × (result ≢ 2) × (result ≢ 6) }
    ensures nine { result ≢ 9 }
    ensures wanting { result ≡ 8 → output.new ≡ output.old }
{
    match fault {
        FileFault::Read => 4,
        FileFault::Mem => 8,
        _ => refuse(alloc, output, fault),
    }
}

// Replays a schedule, and writes what is asked for.
fn reply<S: Source, K: Sink>(alloc: Global, input: &mut S, output: &mut K, what: What) -> u8
    ensures ends { Replays S.faults input.old input.new K.faults output.old output.new what result }
    ensures nine { result ≢ 9 }
    ensures answers { S.tells ≡ true
        → AnswersFile K.tells K.taken output.old output.new what result (file_of (S.left input.old)) }
    ensures agree { S.tells ≡ true → result ≡ 0 → (h : Header) (es : List Event)
        → asked_of what (file_of (S.left input.old)) ≡ Ok (heading h, es) → Agree (setting_of h) es }
    ensures vectors { what ≡ Vectors → S.tells ≡ true → result ≡ 0 → (h : Header) (es : List Event)
        → asked_of what (file_of (S.left input.old)) ≡ Ok (heading h, es)
        → VectorsAgree (has_member h.correct) h.p.n (vectors_text h es) }
    ensures taken { S.tells ≡ true → result ≤ 1 → S.left input.new ≡ [] }
{
    match replay(alloc, input, output, what) {
        ReplayEnd::Done(audit) => audit_status(audit),
        ReplayEnd::File(fault) => give_up(alloc, output, fault),
        ReplayEnd::Write => 5,
        ReplayEnd::Mem => 8,
    }
}

// Writes the usage line, unless memory ran out.
fn refuse_words<K: Sink>(output: &mut K, fault: WordsFault) -> u8
    ensures ends { Ends K.faults output.old output.new result }
    ensures replies { Replies K.tells K.taken output.old output.new result 2 usage }
    ensures either { (result ≡ 2) ⊎ (result ≡ 5) ⊎ (result ≡ 8) }
    ensures memory { fault ≡ WordsFault.Mem → (result ≡ 8) × (output.new ≡ output.old) }
{
    match fault {
        WordsFault::Usage => finish(output, USAGE, 2),
        WordsFault::Mem => 8,
    }
}

// Does a job.
fn work<R: Net + Wait, S: Source, K: Sink, L: Link, D: Disk>(
    host: &Host<R>,
    job: Job,
    input: &mut S,
    output: &mut K,
    link: &mut L,
    disk: &mut D,
) -> u8
    ensures runs { Runs K.faults output.old output.new (L.faults link.old) (L.faults link.new) result }
    ensures input_counts { CountsIf (S.faults input.old) (S.faults input.new) (result ≡ 4) }
    ensures unlinked { is_linked job ≡ false → LeavesLink link.old link.new result }
    ensures disk_counts { CountsIf (D.faults disk.old) (D.faults disk.new) (result ≡ 9) }
    ensures undisked { job ≢ Job.Node → disk.new ≡ disk.old }
    ensures wanting { (what : What) → job ≡ Job.Replay what → what ≢ Frames → result ≡ 8 → output.new ≡ output.old }
    ensures answers { (what : What) → job ≡ Job.Replay what → S.tells ≡ true
        → AnswersFile K.tells K.taken output.old output.new what result (file_of (S.left input.old)) }
    ensures agree { (what : What) → job ≡ Job.Replay what → S.tells ≡ true → result ≡ 0 → (h : Header) (es : List Event)
        → asked_of what (file_of (S.left input.old)) ≡ Ok (heading h, es) → Agree (setting_of h) es }
    ensures vectors { (what : What) → job ≡ Job.Replay what → what ≡ Vectors → S.tells ≡ true → result ≡ 0 → (h : Header) (es : List Event)
        → asked_of what (file_of (S.left input.old)) ≡ Ok (heading h, es)
        → VectorsAgree (has_member h.correct) h.p.n (vectors_text h es) }
    ensures replayed { (what : What) → job ≡ Job.Replay what → S.tells ≡ true → result ≤ 1 → S.left input.new ≡ [] }
    ensures taken { ((what : What) → job ≢ Job.Replay what) → S.tells ≡ true
        → TakesText (S.left input.old) (S.left input.new) result }
    ensures configured { S.tells ≡ true → AnswersJob (tells_of K.Sink L.Link) K.taken output.old output.new
        (outs_of K.Sink L.Link output.old link.old)
        (outs_of K.Sink L.Link output.new link.new)
        (disk_seen D.Disk disk.old disk.new) (LeavesLink link.old link.new result) (disk.new ≡ disk.old) result (S.left input.old) job }
    ensures undriven { (what : DriveWhat) → job ≡ Job.Drive what → result ≡ 8 → output.new ≡ output.old }
{
    match job {
        Job::Replay(what) => reply(host.alloc, input, output, what),
        Job::Drive(_) | Job::Keys | Job::Node | Job::Cluster | Job::Submit | Job::Watch => {
            do_read(host, job, input, output, link, disk)
        }
    }
}

/// Does what the words after the program's name say, and answers with the status of the process.
///
/// - `replay report` reads a schedule file from the input, to its end, lets its events happen to a world of replicas as it is read, and
///   then writes a report. `replay frames` does the same, and then writes a line for each frame that a correct replica made, in the order
///   of events and within an event in the order in which they were put out, and the line of the audit. `replay vectors` writes a line for
///   each correct replica, with the last vector that it decided, and the line of the audit; of a file without a fault whose root service
///   isn't 5 or 6, the line that names it at 15, with 3. It is 0 where the audit of the world holds, and 1 where it doesn't.
/// - `drive report` reads a plan, makes its schedule, honest or hostile, in a world of replicas and of faces of faulty ones, and writes
///   the report of that world; `drive schedule` writes the schedule's file. It is 0 or 1 by the audit.
/// - `keys` deals the keys of all replicas of a session from a master key, and writes a line for each.
/// - `node` starts the link with a replica's addresses, serves that replica, and writes a schedule file of what it took; `cluster` does so
///   with all replicas of a session, and begins with the requests of its configuration. It is 0 where serving ended by its rules, and 7
///   by the rule of what is kept. A node whose configuration says so keeps a journal on the disk, and begins with what it kept before.
/// - `submit` starts the link with the addresses of nodes, hands a request to each, and writes the position that f + 1 of them reply, with
///   0, or that there was none, with 1.
/// - `watch` starts the link with the addresses of nodes, asks each for the rows of its log, and takes a row once f + 1 of
///   them gave it. It writes the lines of these rows, as in a report: with 0 as soon as there are as many as the
///   configuration wants, and with 1 where the link ends before that.
///
/// A file that isn't a schedule is answered with a line that names its first fault and the place of it, and 3, or 7 for one that is longer
/// than 64 MiB. A text that isn't the job's configuration is answered with a line that names its first wrong or missing line, and 3, or 7
/// for one that is longer than 1 MiB; a plan whose schedule would have more than 4,000,000 steps, or a file of more than 64 MiB, with a
/// line that names that limit, and 7. A journal that is another session's, or broken, is answered with a line that names the place, and 3,
/// and one that is longer than 64 MiB with the limit, and 7; where it becomes so long while it is kept, it is 7 without a line. It is
/// so too, behind the whole file, where in a session of version 3 more than 536,870,912 bytes are kept for the peers of a replica. Other
/// words are answered with a line on usage, and 2. It is 4 where a call of the input failed, and then nothing was written; 5 where one
/// of the output failed, which took a front of the text; 6 where one of the link failed, which only `node`, `cluster`, `submit` and
/// `watch` use; and 9 where one of the disk failed: then a front of the file was written, or nothing where the journal couldn't be opened.
/// By its count of faults just one call failed then, and none at any other status. It is 8 where memory ran out: then nothing was written
/// of a report, of vectors or of a schedule that was made, and a front of frames or of what was served.
///
/// Of a schedule all is read before 0 or 1, and of a configuration one byte more than 1 MiB at most.
///
/// Where a schedule was replayed or made with 0, or what a cluster served has an audit that holds, correct replicas' logs of commands are
/// prefixes of one list, with each command once: one row for each client and request. Each command there was submitted at a correct
/// replica: the row has the client, the request and the payload of an input of one, and where its own origin is correct, of that
/// replica's input of the row's number. And no two correct replicas decided differently in any instance: at each slot
/// all that delivered a value delivered the same one, of a correct replica what it started there, and so it is of what their
/// one instance and each instance inside decided. A bit that one of them decided in root service 3 was an input of a correct replica,
/// and so was a value in root service 4. No vector consensus of one of them is spent: `replay vectors` then has no line that says so.
/// The broadcasts and binary consensus are those of Bracha, "Asynchronous Byzantine Agreement Protocols" (1987), vector
/// consensus is that of Correia, Neves and Veríssimo, "From Consensus to Atomic Broadcast" (2006), and these and multi-valued
/// consensus are those of Moniz, Neves, Correia and Veríssimo, "RITAS: Services for Randomized Intrusion Tolerance" (2011).
///
/// Only the calls of the link wait. Nothing says that `node` and `cluster` ever end.
pub fn run<R: Net + Wait, S: Source, K: Sink, L: Link, D: Disk>(
    rt: &R,
    alloc: Global,
    words: &Vec<String>,
    input: &mut S,
    output: &mut K,
    link: &mut L,
    disk: &mut D,
) -> u8
    // The status is one of ten. One call of the output failed just at 5, and at 4 nothing was written.
    ensures ends { Ends K.faults output.old output.new result }

    // One call of the input failed just at 4, and one of the link just at 6. At most one of the link was without memory, and that only at 8.
    ensures input_counts { CountsIf (S.faults input.old) (S.faults input.new) (result ≡ 4) }
    ensures link_counts { LinkCounts (L.faults link.old) (L.faults link.new) result }

    // One call of the disk failed just at 9. No job but a node with a journal touches the disk.
    ensures disk_counts { CountsIf (D.faults disk.old) (D.faults disk.new) (result ≡ 9) }
    ensures undisked { (job : Job) → job_of (map string_bytes words.now.items) ≡ Some job → job ≢ Job.Node → disk.new ≡ disk.old }

    // At words that name no job the usage line is written, with status 2, unless the output fails or memory runs out, and neither the input
    // nor the link is touched. Only the jobs that serve, submit or watch touch the link, and only they end with 6.
    ensures usage { job_of (map string_bytes words.now.items) ≡ None
        → Replies K.tells K.taken output.old output.new result 2 usage }
    ensures others { job_of (map string_bytes words.now.items) ≡ None → (result ≡ 2) ⊎ (result ≡ 5) ⊎ (result ≡ 8) }
    ensures unread { job_of (map string_bytes words.now.items) ≡ None → (input.new ≡ input.old) × (link.new ≡ link.old) × (disk.new ≡ disk.old) }
    ensures named { (job : Job) → job_of (map string_bytes words.now.items) ≡ Some job → result ≢ 2 }
    ensures unlinked { (job : Job) → job_of (map string_bytes words.now.items) ≡ Some job → is_linked job ≡ false
        → LeavesLink link.old link.new result }

    // Where a schedule is to be replayed, what is asked for of the file's world is written, with its status, or the line of the
    // file's first fault. Where memory runs out, nothing is written of a report or of vectors. At 0 and 1 the input was read to its end.
    ensures wanting { (what : What) → Asks (map string_bytes words.now.items) what → what ≢ Frames → result ≡ 8
        → output.new ≡ output.old }
    ensures answers { (what : What) → Asks (map string_bytes words.now.items) what → S.tells ≡ true
        → AnswersFile K.tells K.taken output.old output.new what result (file_of (S.left input.old)) }
    ensures to_its_end { IsReplay (map string_bytes words.now.items) → S.tells ≡ true → result ≤ 1 → S.left input.new ≡ [] }

    // Each file of a header and events is replayed, and nothing else is; but vectors are written in root services 5 and 6 alone, and in the
    // others the root service is named as the file's fault.
    ensures every { (what : What) → Asks (map string_bytes words.now.items) what → S.tells ≡ true → (h : Header) (es : List Event)
        → IsFile (S.left input.old) (heading h) es → has_text what h.mode.root ≡ true
        → Replies K.tells K.taken output.old output.new result (status_of h es) (text what h es) }
    ensures without { (what : What) → Asks (map string_bytes words.now.items) what → S.tells ≡ true → (h : Header) (es : List Event)
        → IsFile (S.left input.old) (heading h) es → has_text what h.mode.root ≡ false
        → Replies K.tells K.taken output.old output.new result 3 (input_line (codes "header") 15) }
    ensures only { (what : What) → Asks (map string_bytes words.now.items) what → S.tells ≡ true → IsBytes (S.left input.old) → result ≤ 1
        → (h : Header) × (es : List Event) × IsFile (S.left input.old) (heading h) es × (has_text what h.mode.root ≡ true)
        × (result ≡ status_of h es) }

    // Where it is 0, the replicas agree: on their logs of commands, at each slot on one value, on the inputs of the correct
    // ones, and on what is decided.
    ensures agree { IsReplay (map string_bytes words.now.items) → S.tells ≡ true → IsBytes (S.left input.old) → result ≡ 0
        → (h : Header) (es : List Event) → IsFile (S.left input.old) (heading h) es → Agree (setting_of h) es }

    // Where vectors are asked for and it is 0 or 1, the text of the last vectors was written. At 0, where its last line says that the audit
    // holds, no line says that attempts are spent, and lines of one round are equal but for the replica.
    ensures vectors { Asks (map string_bytes words.now.items) Vectors → S.tells ≡ true → IsBytes (S.left input.old) → result ≤ 1
        → (h : Header) (es : List Event) → IsFile (S.left input.old) (heading h) es
        → WroteVectors K.tells K.taken output.old output.new result h es }

    // Of the text of another job's configuration: what comes of what it says; of a text that isn't one, or is too long, the line of its
    // first fault, or of the limit, and the link isn't touched. A plan's schedule is written, or the line of the limit that it passes
    // first, and at 0 its replicas agree; keys are written; a node or a cluster is served; a request is handed in, and its position written.
    // A log is watched, and the rows that are written are those of an observer over the link's replies (`RunsWatch`): the link was given the
    // queries of `Watches` alone, in their order, and a front of them where it failed or memory ran out.
    ensures configured { (job : Job) → job_of (map string_bytes words.now.items) ≡ Some job → S.tells ≡ true
        → AnswersJob (tells_of K.Sink L.Link) K.taken output.old output.new
        (outs_of K.Sink L.Link output.old link.old)
        (outs_of K.Sink L.Link output.new link.new)
        (disk_seen D.Disk disk.old disk.new) (LeavesLink link.old link.new result) (disk.new ≡ disk.old) result (S.left input.old) job }
    ensures undriven { (what : DriveWhat) → job_of (map string_bytes words.now.items) ≡ Some (Job.Drive what) → result ≡ 8
        → output.new ≡ output.old }

    // Of such an input at most one byte more is read than a configuration may have, and all of a text within that limit, unless the input
    // failed or memory ran out.
    ensures taken { (job : Job) → job_of (map string_bytes words.now.items) ≡ Some job → ((what : What) → job ≢ Job.Replay what)
        → S.tells ≡ true → TakesText (S.left input.old) (S.left input.new) result }

    // Each text of the lines of a plan is driven, line by line as they are written.
    ensures planned { (what : DriveWhat) → job_of (map string_bytes words.now.items) ≡ Some (Job.Drive what) → S.tells ≡ true → (p : Plan)
        → IsText drive_column (planned p) (S.left input.old) → length (S.left input.old) ≤ text_limit
        → AnswersPlan K.tells K.taken output.old output.new what result p }

    // Where a node or a cluster is served to 0, the output took the file of the events that were served, and the link was started once, with
    // the configuration's plan. The frames that it was given for the first time are those that the replicas of the file's world make, in
    // their order: those that `replay frames` prints of the file. Each frame that it was given again had gone out before, and no
    // acknowledgement of it came between the two; and only frames that came, opened and needn't come again were acknowledged. Each position
    // that was replied is that of the request in the log of its replica. And where the audit of the events holds, the replicas agree.
    ensures node { job_of (map string_bytes words.now.items) ≡ Some Job.Node → S.tells ≡ true → (c : NodeConfig)
        → IsText node_column (node_text c) (S.left input.old) → length (S.left input.old) ≤ text_limit → c.journal ≡ false → result ≡ 0
        → HasServed (node_session c) [] (tells_of K.Sink L.Link)
        (outs_of K.Sink L.Link output.old link.old)
        (outs_of K.Sink L.Link output.new link.new) × (disk.new ≡ disk.old) }
    ensures cluster { job_of (map string_bytes words.now.items) ≡ Some Job.Cluster → S.tells ≡ true → (c : ClusterConfig)
        → IsText cluster_column (cluster_text c) (S.left input.old) → length (S.left input.old) ≤ text_limit → result ≡ 0
        → HasServed (cluster_session c) [] (tells_of K.Sink L.Link)
        (outs_of K.Sink L.Link output.old link.old)
        (outs_of K.Sink L.Link output.new link.new) }

    // Where a node has a journal, the same is so of its file, in front of which stand the events of its lives before, which the journal's file opened
    // as; their frames count as sent before. From then on every image that a stop may leave on the disk opens as these and the later ones, but
    // for those that change nothing.
    ensures journal { job_of (map string_bytes words.now.items) ≡ Some Job.Node → S.tells ≡ true → (c : NodeConfig)
        → IsText node_column (node_text c) (S.left input.old) → length (S.left input.old) ≤ text_limit → c.journal ≡ true → result ≡ 0
        → HasLived c (tells_of K.Sink L.Link)
        (outs_of K.Sink L.Link output.old link.old)
        (outs_of K.Sink L.Link output.new link.new)
        (disk_seen D.Disk disk.old disk.new) }
{
    file_laws();
    config_laws();
    let host = Host { rt, alloc };
    match read_words(alloc, words) {
        Ok(job) => work(&host, job, input, output, link, disk),
        Err(fault) => refuse_words(output, fault),
    }
}
