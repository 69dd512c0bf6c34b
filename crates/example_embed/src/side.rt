//! One side of the match: a seat, its disk, and the bytes that came for it.

ghost use Rattle.std.specs.Prelude.{◌<◌};

use crate::moves::{next_move, staying};
use crate::seat::{Came, Seat};
use definitions::{GotAnswer, LogWhy, MoveFault, Nonce, OwnFault, PlayerId, Progress};
use grid_world::Session;
use old_log::{LogFault, OldFault, resume_from};
use peer_core::{Choice, Peer, PlayerView};
use std::alloc::{AllocError, Global};
use std::io;
use std::mem::replace;
use std::random::RandomSource;

/// How many bytes of a link are heard at a time.
const PIECE: usize = 7;

/// One side. Its disk is what a crash leaves of it.
#[derive(Drop)]
pub struct Side {
    seat: Seat,
    disk: Vec<u8>,
    pub inbox: Vec<u8>,
}

impl Side {
    /// A side with an empty disk.
    pub fn new(alloc: Global, session: &Session, me: PlayerId) -> Result<Side, AllocError>
        requires { me < 2 }
    {
        session.facts();
        let peer = Peer::new(alloc, session, me)?;
        let seat = Seat::new(peer, 1 - me);
        let disk = Vec::new(alloc);
        let inbox = Vec::new(alloc);
        Ok(Side { seat, disk, inbox })
    }

    /// The side that goes on from what stands on a disk. What a crash left there of an entry is
    /// dropped.
    pub fn resume(
        alloc: Global,
        session: &Session,
        me: PlayerId,
        mut disk: Vec<u8>,
    ) -> Result<Side, OldFault> {
        if me > 1 || me >= session.players() {
            return Err(OldFault::Bad(LogFault {
                at: 0,
                why: LogWhy::NotReplayed,
            }));
        }
        let resumed = resume_from(alloc, session, me, disk.as_slice())?;
        disk.truncate(resumed.kept as usize);
        let seat = Seat::resumed(resumed, 1 - me);
        let inbox = Vec::new(alloc);
        Ok(Side { seat, disk, inbox })
    }

    /// Loses all but the disk, on which an entry was just being written, and goes on from that.
    pub fn lose(&mut self, rt: &impl Print, alloc: Global, session: &Session) -> io::Result<()> {
        let me = self.seat.peer().me();
        let whole = self.disk.len();
        let mut disk = replace(&mut self.disk, Vec::new(alloc));
        disk.extend_from_slice(&[0, 45, 2])?;
        match Side::resume(alloc, session, me, disk) {
            Ok(side) => {
                *self = side;
                println!(rt; "player {me} was lost, and goes on from the {whole} bytes of its log")
            }
            Err(fault) => println!(rt; "player {me} can't go on: {fault:?}"),
        }
    }

    /// Loses the link, and what is under way on it.
    pub fn hang_up(&mut self) {
        self.inbox.clear();
    }

    /// Greets the other side over a new link.
    pub fn greet(&mut self, out: &mut Vec<u8>) -> Result<(), AllocError> {
        self.seat.greet(out)
    }

    /// What this side knows of a player.
    pub fn view(&self, player: PlayerId) -> PlayerView
        requires { player < 2 }
    {
        let peer = self.seat.peer();
        // what is known of every session: it has two players at least
        peer.session().facts();
        peer.player(player)
    }

    /// Hears what came, lets the player choose where it may, makes what is allowed, and stores it
    /// before it is sent.
    pub fn step(
        &mut self,
        rt: &(impl Print + RandomSource),
        out: &mut Vec<u8>,
    ) -> io::Result<Progress> {
        self.hear_all(rt)?;
        self.choose(rt)?;
        let progress = self.seat.advance();
        self.seat.store(&mut self.disk)?;
        self.seat.send(out)?;
        Ok(progress)
    }

    /// A nonce that nobody can foresee, drawn anew for each choice.
    fn draw(rt: &impl RandomSource) -> io::Result<Nonce> {
        let mut nonce = Nonce { bytes: [0; 32] };
        rt.fill_bytes(&mut nonce.bytes)?;
        Ok(nonce)
    }

    /// Chooses the next move, where one may be chosen now, or stays where that move isn't legal.
    fn choose(&mut self, rt: &(impl Print + RandomSource)) -> io::Result<()> {
        if !self.seat.peer().may_choose() {
            return Ok(());
        }
        let choice = self.seat.peer().choice();
        let mv = next_move(&choice, self.seat.peer().me());
        let nonce = Self::draw(rt)?;
        match self.seat.choose(mv, nonce) {
            Ok(()) | Err(OwnFault::NotNow) => Ok(()),
            Err(OwnFault::Illegal(fault)) => self.stay(rt, &choice, &fault),
        }
    }

    /// Stays, where the move that was chosen isn't legal, with a nonce of its own.
    fn stay(
        &mut self,
        rt: &(impl Print + RandomSource),
        choice: &Choice,
        fault: &MoveFault,
    ) -> io::Result<()> {
        let me = self.seat.peer().me();
        let turn = choice.turn;
        println!(rt; "player {me} may not go there in turn {turn}: {fault:?}; it stays")?;
        let nonce = Self::draw(rt)?;
        match self.seat.choose(staying(choice), nonce) {
            Ok(()) => Ok(()),
            Err(fault) => println!(rt; "player {me} may not stay: {fault:?}"),
        }
    }

    /// Hears all that came, piece by piece.
    fn hear_all(&mut self, rt: &impl Print) -> io::Result<()> {
        let mut rest = self.inbox.as_slice();
        while !rest.is_empty() {
            let piece = &rest[..rest.len().min(PIECE)];
            let mut used = 0;
            match self.seat.hear(piece, &mut used) {
                Came::Broken => break,
                Came::Nothing | Came::Asked => {}
                Came::Frame(answer) => tell(rt, self.seat.peer().me(), &answer)?,
            }
            if used == 0 {
                break;
            }
            rest = &rest[used..];
        }
        self.inbox.clear();
        Ok(())
    }
}

/// Tells of an answer that the match should know of. Frames that are taken, or wait for those
/// before them, are the rule, and the same one comes again where a link is made anew.
fn tell(rt: &impl Print, me: PlayerId, answer: &GotAnswer) -> io::Result<()> {
    match answer {
        GotAnswer::Taken | GotAnswer::Stashed | GotAnswer::Same => Ok(()),
        GotAnswer::Far | GotAnswer::Foreign => println!(rt;
            "player {me} can't use a frame that came: {answer:?}"
        ),
        GotAnswer::Caught(finding) => println!(rt;
            "player {me} caught player {}: {:?}",
            finding.player, finding.kind
        ),
        GotAnswer::Closed => Ok(()),
    }
}
