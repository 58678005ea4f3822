//! What a session begins with.
ghost use Rattle.schedule_file.specs.ReadHeader.{heading};
ghost use Rattle.node_loop.specs.Outs.{outs_of, tells_of};
ghost use Rattle.node_session.specs.Opening.{OpensSession};

use node_loop::ServeEnd;
use outside::{Link, LinkPlan, Sink};
use schedule_file::{Header, Writer};
use std::alloc::Global;
use std::net::Net;
use std::sync::Wait;

/// Writes the header, and starts the link.
pub(crate) fn open<R: Net + Wait, L: Link, K: Sink>(
    rt: &R,
    alloc: Global,
    header: &Header,
    plan: &LinkPlan,
    link: &mut L,
    output: &mut K,
) -> Result<(), ServeEnd>
    ensures opens { OpensSession (heading header.now) plan.now (tells_of K.Sink L.Link)
        (outs_of K.Sink L.Link output.old link.old)
        (outs_of K.Sink L.Link output.new link.new)
        result }
{
    if Writer::start(output, header).is_err() {
        return Err(ServeEnd::TapeFault);
    }
    link.start(rt, alloc, plan)?;
    Ok(())
}
