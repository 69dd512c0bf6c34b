//! What is written once a logger came to its end.

ghost use Rattle.std.specs.Prelude.{◌≡◌, List, true};
ghost use Rattle.definitions.specs.World.{Game};
ghost use Rattle.log_streams.specs.Streams.{Stream};
ghost use Rattle.run_frame.specs.Frame.{Ran};
ghost use Rattle.watch_command.specs.Plays.{IsKnown};
ghost use Rattle.watch_command.specs.Watches as A;
ghost use Rattle.watch_command.specs.Watches.{watch_answer};
ghost use Rattle.watch_command.specs.declared.watching.Watched.TheVariants as end;

use crate::watching::Watched;
use file_commands::put_audit;
use line_io::put;
use live_logger::Watch;
use run_frame::Status;
use station::Sink;
use std::alloc::Global;

/// How a run ends whose polls were all made, where its audit ended so.
fn spent_status(audited: Status) -> Status
    ensures { result ≡ A.spent_status audited }
{
    match audited {
        Status::Done => Status::GaveUp,
        other => other,
    }
}

/// Writes that listening or a poll failed, and says the run's status.
fn put_poll_fault<O: Sink>(out: &mut O) -> Status
    ensures { (game : Game) (streams : List Stream) →
        Ran (O.state out.old) (O.state out.new) (watch_answer game streams end.PollFault) true ⊥ ⊥ result }
{
    match put(out, b"poll fault\n") {
        Ok(()) => Status::PollFault,
        Err(fault) => Status::from(fault),
    }
}

/// Writes the end of a logger that came to it so, and says the run's status.
pub(crate) fn put_end<O: Sink>(
    alloc: Global,
    watch: &Watch,
    watched: Watched,
    out: &mut O,
) -> Status
    requires known { IsKnown watched watch.now }
    ensures { Ran (O.state out.old) (O.state out.new)
        (watch_answer watch.now.view.setting.game watch.now.view.streams watched) true ⊥ ⊥ result }
{
    match watched {
        Watched::Agreed => put_audit(alloc, watch.auditor(), watch.session(), out),
        Watched::Spent => spent_status(put_audit(alloc, watch.auditor(), watch.session(), out)),
        Watched::PollFault => put_poll_fault(out),
        Watched::NoMemory => Status::NoMemory,
    }
}
