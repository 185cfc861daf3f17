//! What a run means to say, and how it is sent.
ghost use Rattle.std.specs.Prelude.{◌≡◌};
ghost use Rattle.nk_reply.specs.Sent.{Delivers, LeavesAlone};
ghost use Rattle.nk_reply.specs.Use.{use_of};
ghost use Rattle.nk_openflow_commands.specs.Ends.{flows_answer_in};

use nk_io::Sink;
use nk_reply::{Reply, Status, deliver, deliver_text};

/// The whole answer of a run, made before its first byte is written.
#[derive(Drop)]
pub enum FlowsReply {
    /// The words don't begin with a switch and a part of its table.
    Usage,
    /// The answer to other words.
    Reply(Reply),
}

/// Sends it, and makes no call on the sink that it doesn't go to. It takes no memory.
pub(crate) fn send<O: Sink, E: Sink>(said: &FlowsReply, out: &mut O, err: &mut E) -> Status
    ensures delivered { Delivers (flows_answer_in said.now)
        (use_of O.taken O.faults out.old out.new)
        (use_of E.taken E.faults err.old err.new) result }
    ensures alone { LeavesAlone result (out.new ≡ out.old) (err.new ≡ err.old) }
{
    match said {
        FlowsReply::Usage => deliver_text(
            Status::Usage,
            b"usage: nk_flows SWITCH groups|flows [BASE] FIELD=OXM ..\n",
            out,
            err,
        ),
        FlowsReply::Reply(reply) => deliver(reply, out, err),
    }
}
