//! The command over the files that its words name.

ghost use Rattle.std.specs.Prelude.{◌≡◌, []};
ghost use Rattle.run_frame.specs.Outside.{Outside, with_datagrams};
ghost use Rattle.run_frame.specs.Runs.{Works};
ghost use Rattle.post_command.specs.PostLaw.{post_law};
ghost use Rattle.seat_files.specs.Words.{posting_said};

use crate::playing::play_post;
use datagram_post::Post;
use rand_core::Rng;
use run_frame::Status;
use seat_files::{PostWords, Seat, open_seat};
use station::{Shelf, Sink};
use std::alloc::Global;

/// Plays for the player of a file's session with the others of a roster over datagrams, by the moves of a text, all as the words ask
/// for, but for the last line of a refusal.
///
/// No call of the post was made before.
pub fn run_post<O: Sink, H: Shelf, D: Post, R: Rng>(
    alloc: Global,
    words: PostWords<'_>,
    out: &mut O,
    shelf: &mut H,
    post: &mut D,
    chance: &mut R,
) -> Status
    requires first { D.history post.old ≡ [] }
    ensures { (rest : Outside) → Works (post_law (posting_said words.entry)) (with_datagrams rest (O.state out.old) (H.state shelf.old) (D.history post.old) (R.stream chance.old)) (with_datagrams rest (O.state out.new) (H.state shelf.new) (D.history post.new) (R.stream chance.new)) result }
{
    let named = words.peer_words();
    match open_seat(alloc, shelf, named) {
        Err(status) => status,
        Ok(seat) => {
            let Seat {
                peer,
                dropped: _,
                roster,
                mut pilot,
            } = seat;
            play_post(
                alloc,
                peer,
                roster,
                words.log,
                words.polls,
                post,
                &mut pilot,
                chance,
                out,
            )
        }
    }
}
