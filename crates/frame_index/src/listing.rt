//! All findings of the logs that an index stands for.

ghost use Rattle.std.specs.Prelude.{◌≡◌, ◌<◌, ◌≤◌, ◌+◌, ◌++◌, List, length, flat_map, OnOk, IfOk, IsTrue};
ghost use Rattle.std.specs.List.{range_with_len};
ghost use Rattle.std.specs.Option.{option_to_list};
ghost use Rattle.definitions.specs.declared.logs.Entry.{Entry};
ghost use Rattle.definitions.specs.Findings as D;
ghost use Rattle.definitions.specs.World.{players_of};
ghost use Rattle.frame_index.specs.Frames as F;
ghost use Rattle.frame_index.specs.Heads as H;
ghost use Rattle.frame_index.specs.Keeps.{Keeps, finding_by};
ghost use Rattle.frame_index.specs.Plain as P;

use crate::frames::FrameIndex;
use crate::heads::{Heads, read_first, read_turn, start_heads};
use crate::illegal::illegal;
use crate::limits::MOST_LOGS;
use crate::pairs::{bad_opening, collision, two_commits};
use crate::plain::is_plain_player;
use crate::seen::Seen;
use definitions::{Finding, Kind, PlayerId, Spot, Turn};
use grid_world::Session;
use move_rules::Walker;
use std::alloc::{AllocError, Global};

/// Puts the finding of the kind behind the others, if there is one.
fn put(
    out: &mut Vec<Finding>,
    player: PlayerId,
    turn: Turn,
    kind: Kind,
    pair: Option<(Spot, Spot)>,
) -> Result<(), AllocError>
    ensures { OnOk result (out.new.items ≡ out.old.items ++ option_to_list (finding_by player turn kind pair)) }
{
    match pair {
        None => Ok(()),
        Some((first, second)) => {
            out.push(Finding {
                player,
                turn,
                kind,
                first,
                second,
            })?;
            Ok(())
        }
    }
}

/// Puts the findings of a player's turn behind the others, by what is kept of the turn and what each log shows before it.
fn put_kinds(
    alloc: Global,
    session: &Session,
    walker: &mut Walker,
    player: PlayerId,
    turn: Turn,
    seen: &[Seen],
    heads: &Heads,
    out: &mut Vec<Finding>,
) -> Result<(), AllocError>
    requires player { player < players_of session.now }
    requires tracks { H.AreOpen session.now heads.now }
    ensures { OnOk result ((logs : List (List Entry)) → length logs ≤ MOST_LOGS → turn < session.now.turns → Keeps session.now player turn logs seen.now → H.Stand session.now player logs (H.front_of session.now turn) heads.now → out.new.items ≡ out.old.items ++ D.findings_in session.now logs player turn) }
{
    put(out, player, turn, Kind::TwoCommits, two_commits(seen))?;
    put(out, player, turn, Kind::BadOpening, bad_opening(seen))?;
    put(out, player, turn, Kind::Collision, collision(alloc, seen)?)?;
    let wrong = illegal(session, walker, player, turn, seen, heads);
    put(out, player, turn, Kind::Illegal, wrong)?;
    Ok(())
}

/// Puts the findings of a player's turn behind the others, and reads on to the next turn.
fn put_turn(
    alloc: Global,
    index: &FrameIndex,
    session: &Session,
    walker: &mut Walker,
    player: PlayerId,
    turn: Turn,
    seen: &mut Vec<Seen>,
    heads: &mut Heads,
    out: &mut Vec<Finding>,
) -> Result<(), AllocError>
    requires player { player < players_of session.now }
    requires turn { turn < session.now.turns }
    requires tracks { H.AreOpen session.now heads.old }
    ensures tracks { H.AreOpen session.now heads.new }
    ensures stand { OnOk result ((logs : List (List Entry)) → F.IsIndex session.now logs index.now → H.Stand session.now player logs (H.front_of session.now turn) heads.old → H.Stand session.now player logs (H.front_of session.now (turn + 1)) heads.new) }
    ensures found { OnOk result ((logs : List (List Entry)) → length logs ≤ MOST_LOGS → F.IsIndex session.now logs index.now → H.Stand session.now player logs (H.front_of session.now turn) heads.old → out.new.items ≡ out.old.items ++ D.findings_in session.now logs player turn) }
{
    index.gather(player, turn, seen)?;
    put_kinds(alloc, session, walker, player, turn, seen, heads, out)?;
    read_turn(index, session, walker, player, turn, seen, heads)
}

/// Whether no log shows a finding of the player, which is known by `is_clear`, or by what is kept of it.
fn shows_nothing(
    index: &FrameIndex,
    session: &Session,
    walker: &mut Walker,
    player: PlayerId,
    is_clear: bool,
) -> bool
    requires player { player < players_of session.now }
    requires clear { IsTrue is_clear → P.IsClear session.now index.now player }
    ensures { IsTrue result → P.IsClear session.now index.now player }
{
    is_clear || is_plain_player(index, session, walker, player)
}

/// Puts the findings of a player's turns behind the others, in their order.
fn put_player(
    alloc: Global,
    index: &FrameIndex,
    session: &Session,
    walker: &mut Walker,
    player: PlayerId,
    is_clear: bool,
    seen: &mut Vec<Seen>,
    out: &mut Vec<Finding>,
) -> Result<(), AllocError>
    requires player { player < players_of session.now }
    requires clear { IsTrue is_clear → P.IsClear session.now index.now player }
    ensures { OnOk result ((logs : List (List Entry)) → length logs ≤ MOST_LOGS → F.IsIndex session.now logs index.now → out.new.items ≡ out.old.items ++ flat_map (D.findings_in session.now logs player) (range_with_len 0 session.now.turns)) }
{
    if shows_nothing(index, session, walker, player, is_clear) {
        return Ok(());
    }
    let mut heads = start_heads(session, player);
    read_first(index, session, walker, player, seen, &mut heads)?;
    for turn in 0..session.turns() {
        put_turn(
            alloc, index, session, walker, player, turn, seen, &mut heads, out,
        )?;
    }
    Ok(())
}

/// All findings of the logs that the index stands for, by player, turn and kind: two received frames, with the least pair of
/// spots, for each player, turn and kind that the logs show.
///
/// The list and what is kept of one turn at a time take memory from `alloc`, and an error comes where there is none. The time
/// is linear in what the index keeps and in the turns of all players, each for `MOST_LOGS` logs; a player of whom all logs show the same
/// legal play is judged once for all of them. Frames of one turn are compared
/// two by two where few are kept of it or two different reveals have one digest; a frame is never looked for among all frames. Whoever knows
/// by [`common_moves`](crate::common_moves) that no log shows a finding of a player says so by `clear`, at the player's number: then what is kept of it isn't
/// gone through again.
pub fn findings(
    alloc: Global,
    session: &Session,
    walker: &mut Walker,
    index: &FrameIndex,
    clear: &[bool],
) -> Result<Vec<Finding>, AllocError>
    requires { P.AreClear session.now index.now clear.now }
    ensures { IfOk result (λ found. (logs : List (List Entry)) → length logs ≤ MOST_LOGS → F.IsIndex session.now logs index.now → found.items ≡ D.findings session.now logs) }
{
    let mut seen = Vec::new(alloc);
    let mut out = Vec::new(alloc);
    for player in 0..session.players() {
        let is_clear = clear.get(usize::from(player)) == Some(&true);
        put_player(
            alloc, index, session, walker, player, is_clear, &mut seen, &mut out,
        )?;
    }
    Ok(out)
}
