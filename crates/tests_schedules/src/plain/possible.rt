//! The steps that are tried at a table, and a table that is made by steps.

use crate::plain::known::{own_of, own_track};
use crate::plain::plain_steps::{least_keep, log_in};
use crate::plain::worlds::{World, is_of_turn, move_for, nonce_of};
use definitions::PlayerId;
use schedule::{Step, Table, has_players};
use std::alloc::{AllocError, Global};

/// A choice of the player by each wish, whether it may choose or not.
fn put_choices(
    world: &World,
    table: &Table,
    player: PlayerId,
    steps: &mut Vec<Step>,
) -> Result<(), AllocError> {
    let Some(log) = log_in(table, player) else {
        return Ok(());
    };
    let turn = own_of(log).chosen;
    let track = own_track(&world.ground, player, log, turn);
    for wish in world.wishes {
        if is_of_turn(wish, turn) {
            let mv = move_for(player, &track, wish);
            let nonce = nonce_of(player, turn);
            steps.push(Step::Choose { player, mv, nonce })?;
        }
    }
    Ok(())
}

/// A delivery of each frame that one honest player made to another: the next one, those that come
/// early, and repeats.
fn put_deliveries(
    table: &Table,
    from: PlayerId,
    to: PlayerId,
    steps: &mut Vec<Step>,
) -> Result<(), AllocError> {
    if from == to || log_in(table, to).is_none() {
        return Ok(());
    }
    let Some(log) = log_in(table, from) else {
        return Ok(());
    };
    for place in 0..own_of(log).made() {
        steps.push(Step::Deliver { from, to, place })?;
    }
    Ok(())
}

/// Each stop of the player that cuts off no frame which it made.
fn put_stops(table: &Table, player: PlayerId, steps: &mut Vec<Step>) -> Result<(), AllocError> {
    let Some(log) = log_in(table, player) else {
        return Ok(());
    };
    for keep in least_keep(log)..log.len().saturating_add(1) {
        if let Ok(keep) = u32::try_from(keep) {
            steps.push(Step::Stop { player, keep })?;
        }
    }
    Ok(())
}

/// All steps that are tried at the table.
pub fn steps_at(alloc: Global, world: &World, table: &Table) -> Result<Vec<Step>, AllocError> {
    let players = world.session.players();
    let mut steps = Vec::new(alloc);
    for player in 0..players {
        put_choices(world, table, player, &mut steps)?;
    }
    for from in 0..players {
        for to in 0..players {
            put_deliveries(table, from, to, &mut steps)?;
        }
    }
    steps.extend_from_slice(world.offers.as_slice())?;
    for player in 0..players {
        put_stops(table, player, &mut steps)?;
    }
    Ok(steps)
}

/// A table of the world behind these steps.
pub fn table_behind(alloc: Global, world: &World, steps: &[Step]) -> Result<Table, AllocError> {
    let mut table = Table::new(alloc, &world.session, world.hostile)?;
    for step in steps {
        if has_players(step, table.session()) {
            let _ = table.step(step);
        }
    }
    Ok(table)
}
