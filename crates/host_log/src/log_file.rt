//! A log as a file of its machine.

ghost use Rattle.std.specs.Prelude.{◌≡◌, ◌<◌, IfSome, is_some, length, option_map, true, false};
ghost use Rattle.host_log.specs.Files.{CreatesLog, IsFolderOf, IsLastSlash, AppendsSome, AppendsAll, SyncsLog};

use machine_host::Host;

/// Who may read and write a new log: its owner alone, since it has the moves and nonces of turns
/// that aren't shown yet.
pub const LOG_MODE: u32 = 0o600;

/// A new file that is appended to, and the folder that it was created in.
#[derive(Drop)]
pub struct LogFile<H: Host> {
    pub(crate) file: H::File,
    pub(crate) folder: H::Folder,
}

/// Where the last slash of a path stands.
fn last_slash(path: &[u8]) -> Option<usize>
    ensures last { IsLastSlash path.now result }
    ensures within { IfSome result (λ at. at < length path.now) }
{
    let mut place = path.len();
    while place > 0 {
        place -= 1;
        if path[place] == b'/' {
            return Some(place);
        }
    }
    None
}

/// The path of the folder that a file of this path is created in.
fn folder_of(path: &[u8]) -> &[u8]
    ensures { IsFolderOf path.now result.now }
{
    match last_slash(path) {
        None => b".",
        Some(0) => b"/",
        Some(at) => &path[..at],
    }
}

/// Creates the file at this path. A file that is there is a fault, and is left as it is.
pub fn create<H: Host>(host: &mut H, path: &[u8]) -> Option<LogFile<H>>
    ensures asked { CreatesLog path.now (is_some result) (H.history host.old) (H.history host.new) }
{
    let Ok(folder) = host.open_folder(folder_of(path)) else {
        return None;
    };
    match host.create(path, LOG_MODE) {
        Err(_) => None,
        Ok(file) => Some(LogFile { file, folder }),
    }
}

/// Appends the first of these bytes, and gives the others; None comes where the machine failed, or
/// took none.
fn append_some<'a, H: Host>(host: &mut H, file: &mut H::File, bytes: &'a [u8]) -> Option<&'a [u8]>
    ensures { AppendsSome bytes.now (option_map (λ rest. rest.now) result) (H.history host.old) (H.history host.new) }
{
    match host.append(file, bytes) {
        Err(_) => None,
        Ok(count) => {
            if count == 0 {
                return None;
            }
            Some(&bytes[count..])
        }
    }
}

/// Appends all these bytes, as many at a time as the machine takes. Where it fails some of them
/// may stand in the file.
pub fn append<H: Host>(host: &mut H, file: &mut H::File, bytes: &[u8]) -> bool
    ensures { AppendsAll bytes.now result (H.history host.old) (H.history host.new) }
{
    let mut rest = bytes;
    while !rest.is_empty() {
        match append_some(host, file, rest) {
            None => return false,
            Some(left) => rest = left,
        }
    }
    true
}

/// What was appended stays after a crash of the machine; so does, from the first time on, that
/// there is such a file.
pub fn sync<H: Host>(host: &mut H, file: &mut H::File, unsynced: &mut Option<H::Folder>) -> bool
    ensures asked { SyncsLog (is_some unsynced.old) result (H.history host.old) (H.history host.new) }
    ensures folder { result ≡ true → is_some unsynced.new ≡ false }
{
    if host.sync_file(file).is_err() {
        return false;
    }
    let Some(folder) = unsynced else {
        return true;
    };
    if host.sync_folder(folder).is_err() {
        return false;
    }
    *unsynced = None;
    true
}
