//! The command over the files that its words name.

ghost use Rattle.std.specs.Prelude.{◌≡◌, []};
ghost use Rattle.run_frame.specs.Outside.{Outside, with_sockets};
ghost use Rattle.run_frame.specs.Runs.{Works};
ghost use Rattle.peer_command.specs.PeerLaw.{peer_law};
ghost use Rattle.seat_files.specs.Words.{peering_said};

use crate::playing::play_peer;
use rand_core::Rng;
use run_frame::Status;
use seat_files::{PeerWords, Seat, open_seat};
use socket_station::Station;
use station::{Shelf, Sink};
use std::alloc::Global;

/// Plays for the player of a file's session with the others of a roster, by the moves of a text, from a log on,
/// if one is named, all as the words ask for, but for the last line of a refusal.
///
/// No call of the station was made before.
pub fn run_peer<O: Sink, H: Shelf, S: Station, R: Rng>(
    alloc: Global,
    words: PeerWords<'_>,
    out: &mut O,
    shelf: &mut H,
    station: &mut S,
    chance: &mut R,
) -> Status
    requires first { S.history station.old ≡ [] }
    ensures { (rest : Outside) → Works (peer_law (peering_said words.entry)) (with_sockets rest (O.state out.old) (H.state shelf.old) (S.history station.old) (R.stream chance.old)) (with_sockets rest (O.state out.new) (H.state shelf.new) (S.history station.new) (R.stream chance.new)) result }
{
    match open_seat(alloc, shelf, words) {
        Err(status) => status,
        Ok(seat) => {
            let Seat {
                peer,
                dropped,
                roster,
                mut pilot,
            } = seat;
            play_peer(
                alloc,
                peer,
                roster,
                dropped,
                words.log,
                words.polls,
                station,
                &mut pilot,
                chance,
                out,
            )
        }
    }
}
