//! What files of sealed frames show together.

use crate::frames::{PATH, PLAYER, frame, keys_of, roots_with, sealed, session_of};
use accuser::{AccuseFault, LogText, MOST_LOGS, accuse};
use commitment::put_turn;
use definitions::{Finding, Kind, Spot, TurnFrame, What};
use grid_world::Session;
use std::alloc::Global;
use std::test::Fail;

/// Puts the frame with its seal behind others, by keys of a seed of zeros.
fn put_sealed(
    alloc: Global,
    session: &Session,
    frame: &TurnFrame,
    out: &mut Vec<u8>,
) -> Result<(), Fail> {
    let seal = sealed(alloc, session, &[0; 32], frame)?;
    let mut bytes = [0; 64];
    let count = put_turn(frame, &mut bytes);
    out.extend_from_slice(&bytes[..count])?;
    out.extend_from_slice(seal.bytes())?;
    Ok(())
}

/// The file of the player's commitment of its first turn, by this nonce.
fn file_with(alloc: Global, session: &Session, byte: u8) -> Result<LogText, Fail> {
    let mut bytes = Vec::new(alloc);
    let one = frame(session, What::Commit, 0, byte);
    put_sealed(alloc, session, &one, &mut bytes)?;
    Ok(LogText::new(bytes))
}

#[test]
fn two_sealed_commitments_accuse(rt: HostRuntime) -> Result<(), Fail> {
    let alloc = rt.alloc();
    let session = session_of(alloc, PATH)?;
    let keys = keys_of(alloc, &session, &[0; 32])?;
    let roots = roots_with(alloc, keys.root())?;
    let mut files = Vec::new(alloc);
    files.push(file_with(alloc, &session, 0)?)?;
    files.push(file_with(alloc, &session, 9)?)?;
    if files.len() > MOST_LOGS as usize {
        return Err("many".into());
    }
    let Ok(report) = accuse(alloc, &session, &roots, &files) else {
        return Err("no report".into());
    };
    let finding = Finding {
        player: PLAYER,
        turn: 0,
        kind: Kind::TwoCommits,
        first: Spot { log: 0, entry: 0 },
        second: Spot { log: 1, entry: 0 },
    };
    assert_eq!(rt; report.findings().len(), 1);
    assert!(rt; report.findings().first() == Some(&finding));
    Ok(())
}

#[test]
fn a_bad_seal_is_named(rt: HostRuntime) -> Result<(), Fail> {
    let alloc = rt.alloc();
    let session = session_of(alloc, PATH)?;
    let keys = keys_of(alloc, &session, &[0; 32])?;
    let roots = roots_with(alloc, keys.root())?;
    let mut bytes = Vec::new(alloc);
    let first = frame(&session, What::Commit, 0, 0);
    put_sealed(alloc, &session, &first, &mut bytes)?;
    let second = frame(&session, What::Reveal, 0, 0);
    put_sealed(alloc, &session, &second, &mut bytes)?;
    if bytes.len() != 33_109 {
        return Err("another length".into());
    }
    bytes[20_000] ^= 1;
    let mut files = Vec::new(alloc);
    files.push(LogText::new(bytes))?;
    if files.len() > MOST_LOGS as usize {
        return Err("many".into());
    }
    let fault = accuse(alloc, &session, &roots, &files).err();
    assert!(rt;
        fault
            == Some(AccuseFault::BadSeal {
                file: 0,
                at: 16_552
            })
    );
    Ok(())
}
