//! What is written about a peer.

ghost use Rattle.std.specs.Prelude.{◌≡◌, ◌≤◌, ◌++◌, length};
ghost use Rattle.line_io.specs.Texts.{Puts};
ghost use Rattle.report_lines.specs.Lines.{choice_text, found_text, added_text};
ghost use Rattle.drive_command.specs.Report.{end_text};
ghost use Rattle.drive_command.specs.Outcomes.{reply_text, part_text, answered_text, HasAll, HasBefore};
ghost use Rattle.definition_laws.specs.First.{finding_of_log};

use crate::logging::put_log;
use crate::outcomes::{Answered, Arrival, Reply};
use definitions::PlayerId;
use line_io::{SinkFault, put};
use peer_core::Peer;
use report_lines::{
    bad_byte_line, choice_line, end_line, got_line, hello_line, put_added, put_found, put_players,
    put_score, put_stand, want_line,
};
use station::Sink;

/// Writes the end: how the peer stands, what its log shows of each player, and that this is all.
#[tactic(auto, unfolding(crate::specs::Report::end_text, crate::specs::Report::last_text))]
pub(crate) fn put_end<O: Sink>(peer: &Peer, out: &mut O) -> Result<(), SinkFault>
    ensures { Puts (O.state out.old) (O.state out.new) (end_text peer.now.game peer.now.me peer.now.entries) result }
{
    put_stand(peer, out)?;
    put_players(peer, out)?;
    put(out, end_line())
}

/// Writes the answer to a frame that came, and what is told of the entries that the log has by now behind those before.
fn put_reply<O: Sink>(
    peer: &Peer,
    from: PlayerId,
    reply: &Reply,
    out: &mut O,
) -> Result<(), SinkFault>
    requires { reply.now.entries ≤ length peer.now.entries }
    ensures { Puts (O.state out.old) (O.state out.new) (reply_text from reply.now peer.now.entries) result }
{
    put(out, got_line(from, reply.place, &reply.answer).as_slice())?;
    put_added(peer.entries(), reply.entries, out)
}

/// Writes what is told of a line.
pub(crate) fn put_answered<O: Sink>(
    peer: &Peer,
    answered: &Answered,
    out: &mut O,
) -> Result<(), SinkFault>
    requires { HasAll answered.now peer.now.entries }
    ensures { Puts (O.state out.old) (O.state out.new) (answered_text peer.now.game peer.now.me answered.now peer.now.entries) result }
{
    match answered {
        Answered::Nothing => put(out, b""),
        Answered::Choice {
            turn,
            fault,
            entries,
        } => {
            put(out, choice_line(*turn, *fault).as_slice())?;
            put_added(peer.entries(), *entries, out)
        }
        Answered::Received(from, reply) => put_reply(peer, *from, reply, out),
        Answered::Log => put_log(peer, out),
        Answered::Score => put_score(peer, out),
    }
}

/// Writes what is told of what arrived in bytes that came from a player.
pub(crate) fn put_part<O: Sink>(
    peer: &Peer,
    from: PlayerId,
    arrival: &Arrival,
    out: &mut O,
) -> Result<(), SinkFault>
    requires { HasBefore arrival.now peer.now.entries }
    ensures { Puts (O.state out.old) (O.state out.new) (part_text arrival.now from peer.now.entries) result }
{
    match arrival {
        Arrival::More => put(out, b""),
        Arrival::Hello => put(out, hello_line(from).as_slice()),
        Arrival::Want(place) => put(out, want_line(from, *place).as_slice()),
        Arrival::Received(reply) => put_reply(peer, from, reply, out),
        Arrival::Bad(place) => put(out, bad_byte_line(from, *place).as_slice()),
    }
}

/// Writes what is told of the log's entries behind the first so many, and the log's first finding, if it has one.
pub(crate) fn put_start<O: Sink>(peer: &Peer, entries: usize, out: &mut O) -> Result<(), SinkFault>
    requires { entries ≤ length peer.now.entries }
    ensures { Puts (O.state out.old) (O.state out.new) (added_text entries peer.now.entries ++ found_text (finding_of_log peer.now.game peer.now.entries)) result }
{
    put_added(peer.entries(), entries, out)?;
    put_found(peer.finding(), out)
}
