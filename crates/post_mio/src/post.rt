//! The datagrams of a machine and a log file as a post.

ghost use Rattle.std.specs.Prelude.{◌≡◌, ◌++◌, ◌∷◌, []};
ghost use Rattle.datagram_post.specs.Items.{bind_item, log_item, poll_item, receive_item, send_item, keep_item, sync_item, did_by};
ghost use Rattle.datagram_post.specs.Withins.{TakesWithin};
ghost use Rattle.host_log.specs.Logs.{no_log};
ghost use Rattle.post_mio.specs.Mails.{ReceivesTo, SendsTo, fresh};
ghost use Rattle.post_mio.specs.Posts.{BindsAt, Polls, Logs, KeepsIn, SyncsIn};
ghost use Rattle.post_mio.specs.Telling.{Tells};

use crate::mails::Mails;
use datagram_post::{Post, PostNotes, Received, Sent};
use host_log::HostLog;
use machine_host::Host;
use socket_station::{Addr, Did};

/// Datagrams and a log file of a machine. What its calls answered is told by record.
#[derive(Drop)]
pub struct MioPost<H: Host> {
    mails: Mails<H>,
    log: HostLog<H::File, H::Folder>,
    notes: PostNotes,
    ghost told: { ∥ Tells log mails.asks notes ∥₁ },
}

/// What is answered to what was done, or wasn't.
fn did_by(is_done: bool) -> Did
    ensures { result ≡ did_by is_done }
{
    if is_done { Did::Done } else { Did::Failed }
}

impl<H: Host + Drop> MioPost<H> {
    /// The machine is asked for nothing yet.
    pub fn new(host: H) -> MioPost<H>
        requires unasked { H.history host ≡ [] }
        ensures begins { ⟦<MioPost<H> as Post>⟧.history result ≡ [] }
        ensures mails { result.mails ≡ fresh [] }
        ensures log { result.log ≡ no_log }
    {
        MioPost {
            mails: Mails::new(host),
            log: HostLog::new(),
            notes: PostNotes::new(),
        }
    }

    /// At every moment, what the post's history tells is what the machine answered
    /// (`specs/Telling.antt`). It does nothing.
    pub fn facts(&self)
        ensures { ∥ Tells self.now.log self.now.mails.asks self.now.notes ∥₁ }
    {}
}

impl<H: Host + Drop> Post for MioPost<H> {
    ghost history = { λ p. p.notes };

    fn bind(&mut self, addr: Addr) -> Did
        ensures after { self.new.notes ≡ self.old.notes ++ bind_item result addr ∷ [] }
        ensures binds { BindsAt addr result self.old.mails self.new.mails }
        ensures log { self.new.log ≡ self.old.log }
    {
        let did = did_by(self.mails.bind(addr));
        self.notes.bind(did, addr);
        did
    }

    fn log_to(&mut self, name: &[u8]) -> Did
        ensures after { self.new.notes ≡ self.old.notes ++ log_item result name.now ∷ [] }
        ensures logs { Logs name.now result self.old.log self.new.log self.old.mails self.new.mails }
    {
        let did = did_by(self.mails.begin(&mut self.log, name));
        self.notes.log_to(did, name);
        did
    }

    fn poll(&mut self) -> Did
        ensures after { self.new.notes ≡ self.old.notes ++ poll_item result ∷ [] }
        ensures polls { Polls result self.old.mails self.new.mails }
        ensures log { self.new.log ≡ self.old.log }
    {
        let did = did_by(self.mails.poll());
        self.notes.poll(did);
        did
    }

    fn receive(&mut self, buf: &mut [u8; 128]) -> Received
        ensures within { TakesWithin result }
        ensures after { self.new.notes ≡ self.old.notes ++ receive_item result buf.new ∷ [] }
        ensures receives { ReceivesTo self.old.mails.is_bound result buf.new self.old.mails self.new.mails }
        ensures log { self.new.log ≡ self.old.log }
    {
        let received = self.mails.receive(buf);
        self.notes.receive(received, buf);
        received
    }

    fn send(&mut self, addr: Addr, bytes: &[u8]) -> Sent
        ensures after { self.new.notes ≡ self.old.notes ++ send_item result addr bytes.now ∷ [] }
        ensures sends { SendsTo self.old.mails.is_bound addr result bytes.now self.old.mails self.new.mails }
        ensures log { self.new.log ≡ self.old.log }
    {
        let sent = self.mails.send(addr, bytes);
        self.notes.send(sent, addr, bytes);
        sent
    }

    fn keep(&mut self, bytes: &[u8]) -> Did
        ensures after { self.new.notes ≡ self.old.notes ++ keep_item result bytes.now ∷ [] }
        ensures keeps { KeepsIn bytes.now result self.old.log self.new.log self.old.mails self.new.mails }
    {
        let did = did_by(self.mails.append(&mut self.log, bytes));
        self.notes.keep(did, bytes);
        did
    }

    fn sync(&mut self) -> Did
        ensures after { self.new.notes ≡ self.old.notes ++ sync_item result ∷ [] }
        ensures syncs { SyncsIn result self.old.log self.new.log self.old.mails self.new.mails }
    {
        let did = did_by(self.mails.sync(&mut self.log));
        self.notes.sync(did);
        did
    }
}
