//! With ample memory a peer is made, and goes on from the log that it handed out. Keys are made,
//! and what they seal is valid. The clauses of the calls that make something allow want of memory.

use crate::codes;
use crate::exports::{lethwyrn_free, lethwyrn_make, lethwyrn_resume};
use crate::handing::{lethwyrn_take_frame, lethwyrn_take_log};
use crate::handle::Handle;
use crate::playing::{lethwyrn_advance, lethwyrn_choose};
use crate::sealing::{
    lethwyrn_root, lethwyrn_seal, lethwyrn_seal_len, lethwyrn_seals_free, lethwyrn_seals_keys,
    lethwyrn_seals_make, lethwyrn_valid,
};
use crate::seals_handle::SealsHandle;
use crate::views::{MoveView, Refusal};
use arrayvec::ArrayVec;
use std::test::Fail;

static DUEL: &[u8] =
    b"playout 1\ngrid 12 12\nrules 1 2 1\ncharge 1 3 2\nturns 6\nplayers 2\nplayer 0 2 5\nplayer 1 4 5\nend\n";

const STAYS: MoveView = MoveView {
    x: 4,
    y: 5,
    strike_x: 0,
    strike_y: 0,
    strikes: false,
};

/// Nothing that a call tells.
fn untold() -> Refusal {
    Refusal {
        line: 91,
        rule: 92,
        at: 93,
        why: 94,
        dropped: true,
    }
}

/// Adds an entry's bytes to a log.
fn keep(log: &mut ArrayVec<u8, 512>, out: &[u8; 96], count: usize) -> Result<(), Fail> {
    let entry = out.get(..count).ok_or("no entry")?;
    log.try_extend_from_slice(entry).map_err(|_| "no room")?;
    Ok(())
}

#[test]
fn a_peer_is_made_and_goes_on_from_its_log(rt: HostRuntime) -> Result<(), Fail> {
    let alloc = rt.alloc();
    let (mut handle, mut why) = (Handle::none(), untold());
    let (mut made, mut count) = (0, 0);
    let (mut out, mut frame) = ([0; 96], [0; 64]);
    let mut log = ArrayVec::new();
    assert_eq!(rt;
        lethwyrn_make(alloc, &mut handle, DUEL, 1, &mut why),
        codes::OK
    );
    assert_eq!(rt;
        lethwyrn_make(alloc, &mut handle, DUEL, 1, &mut why),
        codes::IN_USE
    );
    assert_eq!(rt;
        lethwyrn_choose(alloc, &mut handle, &STAYS, &[7; 32]),
        codes::OK
    );
    assert_eq!(rt; lethwyrn_advance(alloc, &mut handle, &mut made), 50);
    assert_eq!(rt;
        lethwyrn_take_log(alloc, &mut handle, &mut out, &mut count),
        codes::OK
    );
    keep(&mut log, &out, count)?;
    assert_eq!(rt;
        lethwyrn_take_log(alloc, &mut handle, &mut out, &mut count),
        codes::OK
    );
    keep(&mut log, &out, count)?;
    assert_eq!(rt;
        lethwyrn_take_frame(alloc, &mut handle, &mut frame, &mut count),
        codes::STORE_FIRST
    );
    lethwyrn_free(alloc, &mut handle);

    log.try_push(0).map_err(|_| "no room")?;
    assert_eq!(rt;
        lethwyrn_resume(alloc, &mut handle, DUEL, 1, log.as_slice(), &mut why),
        codes::OK
    );
    assert_eq!(rt; (why.at, why.dropped), (152, true));
    assert_eq!(rt;
        lethwyrn_take_frame(alloc, &mut handle, &mut frame, &mut count),
        codes::OK
    );
    assert_eq!(rt; frame.get(..count), out.get(3..43));
    lethwyrn_free(alloc, &mut handle);
    Ok(())
}

#[test]
fn keys_are_made_and_what_they_seal_is_valid(rt: HostRuntime) -> Result<(), Fail> {
    let alloc = rt.alloc();
    let (mut keys, mut judge) = (SealsHandle::none(), SealsHandle::none());
    let (mut why, mut count, mut root) = (untold(), 0, [0; 32]);
    let mut frame = [9; 40];
    frame[..8].copy_from_slice(&[2, 0, 37, 1, 0, 0, 0, 5]);
    assert_eq!(rt;
        lethwyrn_seals_make(alloc, &mut judge, DUEL, &mut why),
        codes::OK
    );
    assert_eq!(rt; lethwyrn_root(alloc, &mut judge, &mut root), codes::NO_KEYS);
    assert_eq!(rt;
        lethwyrn_seals_keys(alloc, &mut keys, DUEL, 1, &[7; 32], &mut why),
        codes::OK
    );
    assert_eq!(rt;
        lethwyrn_seals_keys(alloc, &mut keys, DUEL, 1, &[7; 32], &mut why),
        codes::IN_USE
    );
    assert_eq!(rt; lethwyrn_root(alloc, &mut keys, &mut root), codes::OK);
    // six turns have twelve places, so that the tree of their keys is four high
    assert_eq!(rt; lethwyrn_seal_len(alloc, &mut judge, &mut count), codes::OK);
    assert_eq!(rt; count, 16512);
    let mut seal = vec![in alloc; 0; 16512]?;
    assert_eq!(rt;
        lethwyrn_seal(alloc, &mut keys, &frame, &mut seal[..16511], &mut count),
        codes::NO_ROOM
    );
    assert_eq!(rt;
        lethwyrn_seal(alloc, &mut keys, &frame, &mut seal, &mut count),
        codes::OK
    );
    assert_eq!(rt;
        lethwyrn_valid(alloc, &mut judge, &root, &frame, &seal),
        codes::OK
    );
    frame[39] = 8;
    assert_eq!(rt;
        lethwyrn_valid(alloc, &mut judge, &root, &frame, &seal),
        codes::NOT_VALID
    );
    assert_eq!(rt;
        lethwyrn_seal(alloc, &mut keys, &frame, &mut seal, &mut count),
        codes::USED
    );
    lethwyrn_seals_free(alloc, &mut keys);
    lethwyrn_seals_free(alloc, &mut judge);
    assert_eq!(rt;
        lethwyrn_valid(alloc, &mut judge, &root, &frame, &seal),
        codes::NO_SEALS
    );
    Ok(())
}
