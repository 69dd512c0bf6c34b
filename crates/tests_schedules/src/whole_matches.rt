//! Whole matches, played step by step by what their stand asks for.

use grid_world::{Session, read_session};
use schedule::{GotAnswer, Move, Nonce, PlayerId, Stand, Step, StepAnswer, Table};
use std::alloc::{AllocError, Global};
use std::test::Fail;

/// What was played: how many choices were made, frames delivered, and peers stopped, and how the match stands.
#[derive(Clone, Copy, Debug, PartialEq, Eq)]
struct Played {
    chosen: u32,
    delivered: u32,
    stopped: u32,
    stand: Stand,
}

/// A session whose players stand in rows of eight beside each other, so that all of them meet.
fn crowd(alloc: Global, head: &str, players: u16) -> Result<Session, Fail> {
    let mut text = String::new(alloc);
    text.push_str(head)?;
    for player in 0..players {
        let seat = seat_line(alloc, player)?;
        text.push_str(seat.as_str())?;
    }
    text.push_str("end\n")?;
    let session = read_session(alloc, text.as_str().as_bytes()).map_err(|_| "refused")?;
    Ok(session)
}

/// The line of a player of the crowd.
fn seat_line(alloc: Global, player: u16) -> Result<String, AllocError> {
    let column = player % 8;
    let row = player / 8;
    format!(in alloc; "player {player} {column} {row}\n")
}

/// The choice of a player to stay where it began.
fn stay(session: &Session, player: PlayerId) -> Option<Step> {
    if player >= session.players() {
        return None;
    }
    Some(Step::Choose {
        player,
        mv: Move {
            to: session.start(player),
            strike: None,
        },
        nonce: Nonce {
            bytes: [player; 32],
        },
    })
}

/// The entries of a player's log but the last.
fn but_the_last(table: &Table, player: PlayerId) -> u32 {
    if player < table.session().players() && table.is_honest(player) {
        (table.log_of(player).len().saturating_sub(1) & 0xffff_ffff) as u32
    } else {
        0
    }
}

/// Delivers the frame, and says whether it was taken.
fn delivers(table: &mut Table, from: PlayerId, to: PlayerId, place: u32) -> bool {
    let players = table.session().players();
    if from >= players || to >= players {
        return false;
    }
    table.step(&Step::Deliver { from, to, place }) == StepAnswer::Got(GotAnswer::Taken)
}

/// Stops the player behind all its entries but the last, and says whether that could be.
fn stops(table: &mut Table, player: PlayerId) -> bool {
    let keep = but_the_last(table, player);
    if player >= table.session().players() {
        return false;
    }
    table.step(&Step::Stop { player, keep }) == StepAnswer::Stopped
}

/// Lets the player choose to stay, and says whether it could.
fn chooses(table: &mut Table, player: PlayerId) -> bool {
    match stay(table.session(), player) {
        None => false,
        Some(step) => {
            if !schedule::has_players(&step, table.session()) {
                return false;
            }
            matches!(table.step(&step), StepAnswer::Chosen(_))
        }
    }
}

/// Plays on by what the stand asks for, at most so many steps. Each so many deliveries the player that got the last is stopped and,
/// where it made nothing since, loses it.
fn play(table: &mut Table, most: u32, stop_each: u32) -> Played {
    let mut played = Played {
        chosen: 0,
        delivered: 0,
        stopped: 0,
        stand: Stand::Finished,
    };
    for _ in 0..most {
        match table.stand() {
            Stand::Moving(player) => {
                if chooses(table, player) {
                    played.chosen = played.chosen.saturating_add(1);
                }
            }
            Stand::Behind(to, from, place) => {
                if delivers(table, from, to, place) {
                    played.delivered = played.delivered.saturating_add(1);
                }
                if played.delivered % stop_each.max(1) == 0 && stops(table, to) {
                    played.stopped = played.stopped.saturating_add(1);
                }
            }
            stand => {
                played.stand = stand;
                return played;
            }
        }
    }
    played.stand = table.stand();
    played
}

#[test]
fn eight_players_finish_two_hundred_turns(rt: HostRuntime) -> Result<(), Fail> {
    let head = "playout 1\ngrid 32 32\nrules 2 2 1\ncharge 1 3 2\nturns 200\nplayers 8\n";
    let session = crowd(rt.alloc(), head, 8)?;
    let mut table = Table::new(rt.alloc(), &session, 0)?;
    let played = play(&mut table, 30_000, u32::MAX);
    let whole = Played {
        chosen: 1_600,
        delivered: 22_400,
        stopped: 0,
        stand: Stand::Finished,
    };
    assert_eq!(rt; played, whole);
    Ok(())
}

/// Delivers the frames of this place from each player to each other one, lets every player choose before, and counts the frames
/// that were taken.
fn round(table: &mut Table, place: u32) -> u32 {
    let players = table.session().players();
    let mut taken = 0u32;
    for player in 0..players {
        chooses(table, player);
    }
    for from in 0..players {
        for to in 0..players {
            if delivers(table, from, to, place) {
                taken = taken.saturating_add(1);
            }
        }
    }
    taken
}

#[test]
fn sixty_four_players_finish(rt: HostRuntime) -> Result<(), Fail> {
    let head = "playout 2\ngrid 128 128\nrules 1 1 0\ncharge 1 2 1\nturns 4\nahead 2\nplayers 64\n";
    let session = crowd(rt.alloc(), head, 64)?;
    let mut table = Table::new(rt.alloc(), &session, 0)?;
    let mut taken = 0u32;
    for place in 0..8 {
        taken = taken.saturating_add(round(&mut table, place));
    }
    assert_eq!(rt; taken, 64 * 63 * 8);
    assert_eq!(rt; table.stand(), Stand::Finished);
    Ok(())
}

#[test]
fn peers_that_are_stopped_again_and_again_finish(rt: HostRuntime) -> Result<(), Fail> {
    let head = "playout 2\ngrid 16 16\nrules 1 1 0\ncharge 1 2 1\nturns 12\nahead 3\nplayers 5\n";
    let session = crowd(rt.alloc(), head, 5)?;
    let mut table = Table::new(rt.alloc(), &session, 0)?;
    let played = play(&mut table, 2_000, 2);
    assert_eq!(rt; played.stand, Stand::Finished);
    assert_eq!(rt; played.chosen, 60);
    assert!(rt; played.stopped > 50);
    assert_eq!(rt; played.delivered.wrapping_sub(played.stopped), 5 * 4 * 24);
    Ok(())
}

#[test]
fn two_players_on_the_largest_ground_finish(rt: HostRuntime) -> Result<(), Fail> {
    let head =
        "playout 2\ngrid 1024 1024\nrules 8 8 0\ncharge 1 2 1\nturns 4\nahead 1\nplayers 2\n";
    let session = crowd(rt.alloc(), head, 2)?;
    let mut table = Table::new(rt.alloc(), &session, 0)?;
    let played = play(&mut table, 100, u32::MAX);
    assert_eq!(rt; played.stand, Stand::Finished);
    assert_eq!(rt; played.delivered, 16);
    Ok(())
}
