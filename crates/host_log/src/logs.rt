//! How the log of whoever has a host stands: none, one, or none any more.

ghost use Rattle.std.specs.Prelude.{◌≡◌};
ghost use Rattle.host_log.specs.Logs.{LogsTo, Keeps, SyncsTo, no_log, logged_on, kept_on, synced_on};

use crate::log_file::{self, LogFile};
use machine_host::Host;
use std::marker::Model;

/// A log of a host, if one was begun: there is one at most, and none any more after an append or a
/// sync failed.
#[derive(Drop)]
pub struct HostLog<F, D> {
    file: Option<F>,
    // the folder that the file was created in, until that was synced once
    unsynced: Option<D>,
    begun: bool,
}

impl<F, D> Model for HostLog<F, D> {
    ghost use Rattle.std.specs.Prelude.{is_some};
    ghost use Rattle.host_log.specs.Logs.{LogStand, file_stand};

    ghost Value = { LogStand };

    ghost view = { λ l. record { file = file_stand (is_some l.file) (is_some l.unsynced); begun = l.begun } };
}

impl<F: Drop, D: Drop> HostLog<F, D> {
    /// None was begun.
    pub fn new() -> HostLog<F, D>
        ensures { result ≡ no_log }
    {
        HostLog {
            file: None,
            unsynced: None,
            begun: false,
        }
    }

    /// Begins the log, a new file at this path, unless one was begun. It says whether it did.
    pub fn begin<H: Host<File = F, Folder = D>>(&mut self, host: &mut H, path: &[u8]) -> bool
        ensures asked { LogsTo path.now self.old.begun result (H.history host.old) (H.history host.new) }
        ensures stands { self.new ≡ logged_on result self.old }
    {
        if self.begun {
            return false;
        }
        match log_file::create(host, path) {
            None => false,
            Some(LogFile { file, folder }) => {
                self.file = Some(file);
                self.unsynced = Some(folder);
                self.begun = true;
                true
            }
        }
    }

    /// Appends all these bytes to the log, and says whether it did. Where it didn't, nothing is
    /// appended any more.
    pub fn append<H: Host<File = F, Folder = D>>(&mut self, host: &mut H, bytes: &[u8]) -> bool
        ensures asked { Keeps bytes.now self.old.file result (H.history host.old) (H.history host.new) }
        ensures stands { self.new ≡ kept_on result self.old }
    {
        let Some(file) = &mut self.file else {
            return false;
        };
        if log_file::append(host, file, bytes) {
            return true;
        }
        self.file = None;
        false
    }

    /// What was appended to the log stays after a crash. It says whether it does. Where it doesn't,
    /// nothing is appended or synced any more.
    pub fn sync<H: Host<File = F, Folder = D>>(&mut self, host: &mut H) -> bool
        ensures asked { SyncsTo self.old.file result (H.history host.old) (H.history host.new) }
        ensures stands { self.new ≡ synced_on result self.old }
    {
        let Some(file) = &mut self.file else {
            return false;
        };
        if log_file::sync(host, file, &mut self.unsynced) {
            return true;
        }
        self.file = None;
        false
    }
}
