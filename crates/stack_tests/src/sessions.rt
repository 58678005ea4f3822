//! Tests of `node_session`: sessions of one replica in memory, as a cluster, as a node whose link fails, and as one
//! that comes back with its journal, whatever call of its disk failed.

ghost use Rattle.std.specs.Prelude.{◌≡◌, true, length, All, IfOk};
ghost use Rattle.cluster_config.specs.Cluster.{cluster_text};
ghost use Rattle.cluster_config.specs.Node.{node_text};
ghost use Rattle.cluster_config.specs.Ranges.{FitsNode, FitsCluster};
ghost use Rattle.outside.specs.MemoryLink.{IsShort};
ghost use Rattle.ritas_base.specs.Slots.{is_atomic};

use cluster_config::{ClusterConfig, NodeConfig, Request, Requests};
use event_journal::JournalFault;
use node_loop::ServeEnd;
use node_session::{serve_cluster, serve_node};
use outside::{LinkItem, MemDisk, MemLink, MemSink};
use ritas_base::{Bytes, FrameVersion, Mem, Mode, Params, Texts, Vect};
use std::alloc::Global;
use std::net::Net;
use std::process::Abort;
use std::sync::Wait;
use std::test::*;

// How long a header with the master key is, one with the keys of one replica of one, and the events of one request:
// those up to its row, and all.
const CLUSTER_HEADER: usize = 54;

const NODE_HEADER: usize = 87;

const EVENTS: usize = 14 + 21 * 2;

const ALL_EVENTS: usize = 14 + 30 * 2;

// The piece of a log that has the row of that request.
const PIECE: &[u8] = b"\x03\0\0\0\0\x01\0\0\0\0\0\0\0\0\x07\0\0\0\0\0\x02hi";

// The address of the one replica.
fn peers(alloc: Global) -> Result<Texts, Mem>
    ensures { IfOk result (λ peers. length peers ≡ 1) }
{
    let mut peers = Texts::new(alloc);
    peers.push(Bytes::from_slice(alloc, b"127.0.0.1:7000")?)?;
    Ok(peers)
}

// Root service 6.
fn atomic() -> Mode
    ensures { is_atomic result.root ≡ true }
{
    Mode {
        root: 6,
        vect: Vect::Echo,
        version: FrameVersion::One,
    }
}

// Root service 7.
fn direct() -> Mode
    ensures { is_atomic result.root ≡ true }
{
    Mode {
        root: 7,
        vect: Vect::Echo,
        version: FrameVersion::One,
    }
}

// A session of one replica, which is handed client 7's request 1, and is served until it has a row.
fn cluster(rt: &impl Abort, alloc: Global, mode: Mode) -> Result<ClusterConfig, Mem>
    requires { is_atomic mode.root ≡ true }
    ensures { IfOk result (λ config. FitsCluster (cluster_text config)) }
{
    let p = Params::new(1, 0).expect(rt, "numbers");
    let mut requests = Requests::new(alloc);
    requests.push(Request {
        at: 0,
        client: 7,
        request: 1,
        payload: Bytes::from_slice(alloc, b"hi")?,
    })?;
    Ok(ClusterConfig {
        session: 7,
        p,
        mode,
        master: [0; 32],
        peers: peers(alloc)?,
        limit: 10,
        until: 1,
        requests,
    })
}

// The one replica of a session, which is served until it has so many rows.
fn node(rt: &impl Abort, alloc: Global, journal: bool, until: u32) -> Result<NodeConfig, Mem>
    ensures { IfOk result (λ config. FitsNode (node_text config)) }
{
    let p = Params::new(1, 0).expect(rt, "numbers");
    Ok(NodeConfig {
        session: 7,
        p,
        mode: atomic(),
        me: 0,
        key_row: [[0; 32]; 31],
        coin_key: [0; 32],
        peers: peers(alloc)?,
        client: Bytes::from_slice(alloc, b"127.0.0.1:8000")?,
        limit: 10,
        until,
        journal,
    })
}

// So many requests of client 7.
fn requests(alloc: Global, many: u8) -> Result<Vec<LinkItem>, Mem>
    ensures { IfOk result (λ items. All IsShort items.items) }
{
    let mut items = Vec::new(alloc);
    for request in 0..many {
        let bytes = Bytes::from_slice(alloc, &[0, 0, 0, 7, 0, 0, 0, request, b'h', b'i'])?;
        items.push(LinkItem::Client {
            at: 0,
            conn: 3,
            bytes,
        })?;
    }
    Ok(items)
}

// A request of client 7, and then a query for the first rows by another connection.
fn request_and_query(alloc: Global) -> Result<Vec<LinkItem>, Mem>
    ensures { IfOk result (λ items. All IsShort items.items) }
{
    let mut items = requests(alloc, 1)?;
    let bytes = Bytes::from_slice(alloc, b"L\0\0\0\0")?;
    items.push(LinkItem::Client {
        at: 0,
        conn: 2,
        bytes,
    })?;
    Ok(items)
}

// The large calls stand in functions of their own that promise nothing, so that what makes several has a short proof.

// A link that gives a request and a query.
fn asking_and_querying(alloc: Global) -> Result<MemLink, Mem> {
    MemLink::new(alloc, &request_and_query(alloc)?, &[])
}

// A link that gives so many requests, and whose calls of these numbers fail.
fn asking(alloc: Global, many: u8, fails: &[u64]) -> Result<MemLink, Mem> {
    MemLink::new(alloc, &requests(alloc, many)?, fails)
}

fn live_in_cluster<R: Net + Wait + Abort>(
    rt: &R,
    alloc: Global,
    mode: Mode,
    link: &mut MemLink,
    output: &mut MemSink,
) -> Result<ServeEnd, Mem>
    requires { is_atomic mode.root ≡ true }
{
    let config = cluster(rt, alloc, mode)?;
    serve_cluster(rt, alloc, config, link, output)
}

// A life of the one replica of a session, which is served until it has so many rows.
fn live<R: Net + Wait + Abort>(
    rt: &R,
    alloc: Global,
    journal: bool,
    until: u32,
    link: &mut MemLink,
    output: &mut MemSink,
    disk: &mut MemDisk,
) -> Result<ServeEnd, JournalFault> {
    let config = node(rt, alloc, journal, until)?;
    serve_node(rt, alloc, config, link, output, disk)
}

// An output with room for what a life writes.
fn sink(alloc: Global) -> Result<MemSink, Mem> {
    MemSink::new(alloc, 2_000, &[])
}

// An empty disk with room for a journal, whose calls of these numbers fail.
fn empty(alloc: Global, fails: &[u64]) -> Result<MemDisk, Mem> {
    MemDisk::new(alloc, &[], 16_384, 100, fails)
}

// What a stop leaves of a disk.
fn stopped(alloc: Global, disk: &MemDisk, pick: u32) -> Result<MemDisk, Mem> {
    disk.after_stop(alloc, pick)
}

fn count_written(output: &MemSink) -> usize {
    output.taken().len()
}

fn count_replies(link: &MemLink) -> usize {
    link.replies().len()
}

// Whether this is the reply at this place: to which connection it is, and its bytes.
fn is_reply(link: &MemLink, place: usize, conn: u32, bytes: &[u8]) -> bool {
    match link.replies().get(place) {
        Some(reply) => reply.to == conn && reply.bytes.as_slice() == bytes,
        None => false,
    }
}

fn wrote_the_same(one: &MemSink, other: &MemSink) -> bool {
    one.taken() == other.taken()
}

// The file has the header, the request that it begins with, its turns, and the end mark. Nobody is replied to.
fn serves_in<R: Net + Wait + Abort>(rt: &R, alloc: Global, mode: Mode) -> Result<(), Mem>
    requires { is_atomic mode.root ≡ true }
{
    let mut link = asking(alloc, 0, &[])?;
    let mut output = sink(alloc)?;
    assert!(rt; live_in_cluster(rt, alloc, mode, &mut link, &mut output)? == ServeEnd::Done);
    assert!(rt; count_written(&output) == CLUSTER_HEADER + EVENTS + 1);
    assert!(rt; count_replies(&link) == 0);
    Ok(())
}

#[test]
fn serves_a_cluster(rt: HostRuntime) -> Result<(), Fail> {
    serves_in(&rt, rt.alloc(), atomic())?;
    serves_in(&rt, rt.alloc(), direct())?;
    Ok(())
}

// What the link gave is replied to. The link is started, gives a request, none by then, takes a reply, and gives its
// end: where one of these calls fails, the file ends early.
#[test]
fn each_call_of_the_link_fails(rt: HostRuntime) -> Result<(), Fail> {
    for call in 0..6u64 {
        let mut link = asking(rt.alloc(), 1, &[call])?;
        let mut output = sink(rt.alloc())?;
        let mut disk = empty(rt.alloc(), &[0])?;
        let end = live(&rt, rt.alloc(), false, 0, &mut link, &mut output, &mut disk);
        let wanted = if call < 5 {
            ServeEnd::LinkFault
        } else {
            ServeEnd::End
        };
        assert!(rt; end == Ok(wanted), "at {call}");
        assert!(rt; (count_written(&output) == NODE_HEADER + ALL_EVENTS + 1) == (call == 5));
        assert!(rt; count_replies(&link) == usize::from(call > 3));
    }
    Ok(())
}

// A query is answered at once by a piece of the log, and the file is that of the request alone.
#[test]
fn answers_a_query(rt: HostRuntime) -> Result<(), Fail> {
    let mut link = asking_and_querying(rt.alloc())?;
    let mut output = sink(rt.alloc())?;
    let mut disk = empty(rt.alloc(), &[])?;
    let end = live(&rt, rt.alloc(), false, 0, &mut link, &mut output, &mut disk);
    assert!(rt; end == Ok(ServeEnd::End));
    assert!(rt; count_written(&output) == NODE_HEADER + ALL_EVENTS + 1);
    assert!(rt; count_replies(&link) == 2);
    assert!(rt; is_reply(&link, 0, 3, b"\x01\0\0\0\x07\0\0\0\0\0\0\0\0"));
    assert!(rt; is_reply(&link, 1, 2, PIECE));
    Ok(())
}

// In the second life the journal gives all that the first one took, and the rows are there. Ten requests and their
// turns, all of which are kept, are more than a group may have.
#[test]
fn comes_back(rt: HostRuntime) -> Result<(), Fail> {
    for many in [1, 10] {
        let mut disk = empty(rt.alloc(), &[])?;
        let mut link = asking(rt.alloc(), many, &[])?;
        let mut output = sink(rt.alloc())?;
        let rows = u32::from(many);
        let end = live(
            &rt,
            rt.alloc(),
            true,
            rows,
            &mut link,
            &mut output,
            &mut disk,
        );
        assert!(rt; end == Ok(ServeEnd::Done));
        assert!(rt; count_replies(&link) == usize::from(many));
        let mut silent = asking(rt.alloc(), 0, &[])?;
        let mut again = sink(rt.alloc())?;
        let end = live(
            &rt,
            rt.alloc(),
            true,
            rows,
            &mut silent,
            &mut again,
            &mut disk,
        );
        assert!(rt; end == Ok(ServeEnd::Done));
        assert!(rt; wrote_the_same(&again, &output));
        assert!(rt; count_replies(&silent) == 0);
    }
    Ok(())
}

// A life with a request, in which the call of the disk of this number fails, and how it ended.
fn live_to_a_fault<R: Net + Wait + Abort>(
    rt: &R,
    alloc: Global,
    disk: &mut MemDisk,
) -> Result<Result<ServeEnd, JournalFault>, Mem> {
    let mut link = asking(alloc, 1, &[])?;
    let mut output = sink(alloc)?;
    Ok(live(rt, alloc, true, 0, &mut link, &mut output, disk))
}

// How many bytes the life after that writes, to which nothing comes, and which ends well.
fn follow<R: Net + Wait + Abort>(rt: &R, alloc: Global, disk: &mut MemDisk) -> Result<usize, Mem> {
    let mut link = asking(alloc, 0, &[])?;
    let mut output = sink(alloc)?;
    let end = live(rt, alloc, true, 0, &mut link, &mut output, disk);
    assert!(rt; end == Ok(ServeEnd::End));
    Ok(count_written(&output))
}

// Opening an empty disk makes eight calls, and the request and its turns are one group, which four more append.
fn wanted(call: u64) -> Result<ServeEnd, JournalFault> {
    if call < 8 {
        Err(JournalFault::Disk)
    } else if call < 12 {
        Ok(ServeEnd::DiskFault)
    } else {
        Ok(ServeEnd::End)
    }
}

// Whichever call of the disk fails, and whatever a stop leaves then, a node goes on with what it kept: all events are
// there or none, and where no call failed all.
#[test]
fn each_call_of_the_disk_fails(rt: HostRuntime) -> Result<(), Fail> {
    for call in 0..13u64 {
        let mut disk = empty(rt.alloc(), &[call])?;
        assert!(rt;
            live_to_a_fault(&rt, rt.alloc(), &mut disk)? == wanted(call),
            "at {call}"
        );
        for pick in 0..5u32 {
            let mut left = stopped(rt.alloc(), &disk, pick)?;
            let size = follow(&rt, rt.alloc(), &mut left)?;
            let is_whole = size == NODE_HEADER + ALL_EVENTS + 1;
            assert!(rt;
                is_whole || call < 12 && size == NODE_HEADER + 1,
                "at {call}"
            );
        }
    }
    Ok(())
}
