//! Steps that are taken at a table, each compared with what the entries of the logs call for.

use crate::plain::checks::check_stand;
use crate::plain::known::{own_of, own_track};
use crate::plain::plain_steps::{Outcome, came_so, log_in, outcome_of};
use crate::plain::replies::{tally_in, tally_with};
use crate::plain::worlds::{Trouble, World, hold, is_of_turn, move_for, nonce_of};
use definitions::PlayerId;
use schedule::{Stand, Step, Table, has_players};
use std::alloc::Global;

/// Takes a step, which is to come out so.
pub fn take_so(table: &mut Table, step: &Step, outcome: &Outcome) -> Result<(), Trouble> {
    if !has_players(step, table.session()) {
        return Err(Trouble::Broken("a step names a player whom the session lacks"));
    }
    let due = tally_in(table, outcome.player).map(|tally| tally_with(&tally, outcome.reply));
    let answer = table.step(step);
    hold(
        came_so(table, &answer, outcome),
        "a step comes out otherwise than the entries say",
    )?;
    hold(
        tally_in(table, outcome.player) == due,
        "a step is counted otherwise than it is answered",
    )
}

/// Takes a step.
pub fn take(alloc: Global, world: &World, table: &mut Table, step: &Step) -> Result<(), Trouble> {
    let outcome = outcome_of(alloc, &world.ground, table, step)?;
    take_so(table, step, &outcome)
}

/// The choice of the first wish that is legal for the player.
fn first_choice(world: &World, table: &Table, player: PlayerId) -> Option<Step> {
    let log = log_in(table, player)?;
    let turn = own_of(log).chosen;
    let track = own_track(&world.ground, player, log, turn);
    for wish in world.wishes {
        let mv = move_for(player, &track, wish);
        if is_of_turn(wish, turn) && world.ground.is_legal(player, &track, &mv) {
            return Some(Step::Choose {
                player,
                mv,
                nonce: nonce_of(player, turn),
            });
        }
    }
    None
}

/// The step that the stand asks for, if an honest player can take it.
fn asked_step(world: &World, table: &Table) -> Option<Step> {
    match table.stand() {
        Stand::Moving(player) => first_choice(world, table, player),
        Stand::Behind(to, from, place) => Some(Step::Deliver { from, to, place }),
        Stand::Caught(_) | Stand::Held(_) | Stand::Finished => None,
    }
}

/// Goes on by what the stand asks for, and notes the steps, until nothing is asked of honest
/// players.
pub fn go_on(
    alloc: Global,
    world: &World,
    table: &mut Table,
    trail: &mut Vec<Step>,
) -> Result<(), Trouble> {
    let frames = world.ground.turns.saturating_mul(2);
    let players = u32::from(world.ground.players);
    for _step in 0..frames.saturating_mul(players).saturating_mul(players) {
        check_stand(&world.ground, table)?;
        match asked_step(world, table) {
            None => return Ok(()),
            Some(step) => {
                trail.push(step)?;
                take(alloc, world, table, &step)?;
            }
        }
    }
    check_stand(&world.ground, table)
}
