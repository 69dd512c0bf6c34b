//! A side of a match: a loop and its post.

ghost use Rattle.std.specs.Prelude.{◌≡◌, [], true, false, IfOk};
ghost use Rattle.std.proofs.Props.{props};
ghost use Rattle.datagram_loop.specs.States.{IsReady};
ghost use Rattle.datagram_loop.specs.Beginning.{IsNew};

use bytes::Bytes;
use datagram_loop::{Begun, Ended, PostLoop};
use definitions::PlayerId;
use grid_world::Session;
use memory_post::MemoryPost;
use peer_core::Peer;
use pilots::{Pilot, generator_of};
use rand_pcg::Pcg32;
use rosters::read_roster;
use std::alloc::Global;
use std::test::Fail;

/// A datagram that was sent: the port that it went to, and its bytes.
#[derive(Clone, Copy)]
pub struct Mailed<'a> {
    pub port: u16,
    pub bytes: &'a [u8],
}

/// Which datagrams are to be carried, by their numbers: from the first one on, up to the end.
#[derive(Clone, Copy)]
pub struct Span {
    pub first: u32,
    pub end: u32,
}

/// How a play or a beginning ended, and whether a further play may follow.
#[derive(Clone, Copy)]
struct Played {
    is_ready: bool,
    ended: Option<Ended>,
}

/// A loop and its post.
#[derive(Drop)]
pub struct Side {
    it: PostLoop,
    post: MemoryPost,
    chance: Pcg32,
    carried: u32,
    is_ready: bool,
    ended: Option<Ended>,
    ghost ready: { is_ready ≡ true → IsReady it } by { Prim.hlevel (props) },
}

/// A play after which none follows.
fn over(ended: Ended) -> Played
    ensures { result.is_ready ≡ false }
{
    Played {
        is_ready: false,
        ended: Some(ended),
    }
}

/// Plays. A further play may follow where the polls were too few, and where all is done: then it
/// answers those who don't know that yet.
#[tactic(auto, using(crate::proofs::Ready::gave_up_is_ready, crate::proofs::Ready::done_is_ready))]
fn play_on<P: Pilot>(
    it: &mut PostLoop,
    post: &mut MemoryPost,
    pilot: &mut P,
    chance: &mut Pcg32,
    polls: u64,
) -> Played
    requires { IsReady it.old }
    ensures { result.is_ready ≡ true → IsReady it.new }
{
    match it.play(post, pilot, chance, polls) {
        Ended::GaveUp => Played {
            is_ready: true,
            ended: Some(Ended::GaveUp),
        },
        Ended::Done => Played {
            is_ready: true,
            ended: Some(Ended::Done),
        },
        Ended::Caught(finding) => over(Ended::Caught(finding)),
        Ended::PollFault => over(Ended::PollFault),
        Ended::KeepFault => over(Ended::KeepFault),
        Ended::OwnMove(turn, fault) => over(Ended::OwnMove(turn, fault)),
    }
}

/// Begins.
#[tactic(auto, using(crate::proofs::Ready::begun_is_ready))]
fn begin(it: &mut PostLoop, post: &mut MemoryPost) -> Played
    requires new { IsNew it.old }
    requires first { post.old.history ≡ [] }
    ensures { result.is_ready ≡ true → IsReady it.new }
{
    match it.begin(post, b"log") {
        Begun::Ready => Played {
            is_ready: true,
            ended: None,
        },
        Begun::KeepFault => over(Ended::KeepFault),
        Begun::PollFault => over(Ended::PollFault),
    }
}

/// This call of the post is to fail.
fn let_fail(post: &mut MemoryPost, fails: Option<u32>)
    requires { post.old.ledger.named ≡ [] }
    ensures { post.new.history ≡ post.old.history }
{
    if let Some(number) = fails {
        post.fail_call(number);
    }
}

/// A post of which this call fails.
fn post_of(alloc: Global, fails: Option<u32>) -> Result<MemoryPost, Fail>
    ensures { IfOk result (λ p. p.history ≡ []) }
{
    let mut post = MemoryPost::new(alloc, 5_000, 500_000)?;
    let_fail(&mut post, fails);
    Ok(post)
}

/// A loop of the peer, which has no entries.
#[tactic(auto, using(crate::proofs::Ready::read_links, crate::proofs::Ready::is_new))]
fn loop_of(alloc: Global, session: &Session, me: PlayerId, roster: &[u8]) -> Result<PostLoop, Fail>
    ensures { IfOk result (λ l. IsNew l) }
{
    if me >= session.players() {
        return Err("no player".into());
    }
    let roster = match read_roster(alloc, roster, session, me) {
        Ok(roster) => roster,
        Err(_) => return Err("roster".into()),
    };
    let peer = Peer::new(alloc, session, me)?;
    Ok(PostLoop::new(alloc, peer, roster)?)
}

impl Side {
    /// The side of this player, which begins; of its post the call of this number fails, if one is
    /// named.
    pub fn new(
        alloc: Global,
        session: &Session,
        me: PlayerId,
        roster: &[u8],
        fails: Option<u32>,
    ) -> Result<Side, Fail> {
        let mut it = loop_of(alloc, session, me, roster)?;
        let mut post = post_of(alloc, fails)?;
        let begun = begin(&mut it, &mut post);
        let chance = generator_of(u64::from(me));
        Ok(Side {
            it,
            post,
            chance,
            carried: 0,
            is_ready: begun.is_ready,
            ended: begun.ended,
        })
    }

    /// Plays with so many polls, where that may be.
    pub fn play<P: Pilot>(&mut self, pilot: &mut P, polls: u64) {
        if self.is_ready {
            let it = &mut self.it;
            let played = play_on(it, &mut self.post, pilot, &mut self.chance, polls);
            self.is_ready = played.is_ready;
            self.ended = played.ended;
        }
    }

    /// How the last play ended, or the beginning, if that failed.
    pub fn ended(&self) -> Option<Ended> {
        self.ended
    }

    pub fn it(&self) -> &PostLoop {
        &self.it
    }

    pub fn post(&self) -> &MemoryPost {
        &self.post
    }

    /// How many datagrams were sent.
    pub fn sent(&self) -> u32 {
        self.post.sent()
    }

    /// The datagram of this number, if it was sent.
    pub fn sent_at(&self, index: u32) -> Option<Mailed<'_>> {
        if index >= self.post.sent() {
            return None;
        }
        let port = self.post.sent_to(index).port;
        let bytes = self.post.sent_bytes(index);
        Some(Mailed { port, bytes })
    }

    /// What was sent since the last call.
    pub fn take_sent(&mut self) -> Span {
        let first = self.carried;
        let end = self.post.sent();
        self.carried = end;
        Span { first, end }
    }

    /// A datagram comes.
    pub fn bring(&mut self, datagram: Bytes) -> Result<(), Fail> {
        match self.post.bring(datagram) {
            Ok(()) => Ok(()),
            Err(_) => Err("too many unread".into()),
        }
    }
}
