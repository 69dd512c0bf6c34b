//! What a poll lists: the sockets that are ready, and those that are lost.

ghost use Rattle.std.specs.Prelude.{◌≡◌, ℕ, length, nat_lt};
ghost use Rattle.socket_station.specs.declared.ready_list.TheConstants.{MOST_READY};
ghost use Rattle.station_mio.specs.declared.backlog.Backlog.{Backlog as Waits};
ghost use Rattle.station_mio.specs.Rows.{stand_of};
ghost use Rattle.station_mio.specs.Listing.{seen_of, listed, ready_on, report, report_all, listed_lost, listed_all_lost};

use crate::backlog::Backlog;
use crate::rows::{Row, Rows};
use machine_host::{LISTENER, Numbered};
use socket_station::ready_list::MOST_READY;
use socket_station::{Ready, ReadyList, SocketId};

/// Whether the list has room for one more.
pub(crate) fn has_room(ready: &ReadyList) -> bool
    ensures { result ≡ nat_lt (length ready.now) MOST_READY }
{
    ready.as_slice().len() < MOST_READY
}

/// Lists a socket that may be ready, where there is room.
fn list(ready: &mut ReadyList, number: SocketId)
    ensures { ready.new ≡ listed ready.old number }
{
    if has_room(ready) {
        ready.push(Ready::Socket(number));
    }
}

/// A socket of this number is ready: it stands, and is listed.
fn report_socket<S: Numbered + Drop>(rows: &mut Rows<S>, ready: &mut ReadyList, number: SocketId)
    ensures { (backlog : Waits) → seen_of rows.new backlog ready.new ≡ ready_on (seen_of rows.old backlog ready.old) number }
{
    if rows.raise(number) {
        list(ready, number);
    }
}

/// Takes in a token that was ready.
fn report<S: Numbered + Drop>(
    rows: &mut Rows<S>,
    backlog: &mut Backlog,
    ready: &mut ReadyList,
    token: u64,
)
    ensures { seen_of rows.new backlog.new ready.new ≡ report (seen_of rows.old backlog.old ready.old) token }
{
    if token == LISTENER {
        *backlog = Backlog::Waiting;
        return;
    }
    if let Ok(number) = SocketId::try_from(token) {
        report_socket(rows, ready, number);
    }
}

/// Takes in all tokens that were ready.
pub(crate) fn report_all<S: Numbered + Drop>(
    rows: &mut Rows<S>,
    backlog: &mut Backlog,
    ready: &mut ReadyList,
    tokens: &[u64],
)
    ensures { seen_of rows.new backlog.new ready.new ≡ report_all (seen_of rows.old backlog.old ready.old) tokens.now }
{
    for token in tokens {
        report(rows, backlog, ready, *token);
    }
}

/// Lists a socket that is lost.
fn list_lost<S>(row: &Row<S>, ready: &mut ReadyList)
    ensures { (number : S → ℕ) → ready.new ≡ listed_lost ready.old (stand_of number row.now) }
{
    if let Row::Lost(number) = row {
        list(ready, *number);
    }
}

/// Lists the sockets that are lost.
pub(crate) fn list_all_lost<S: Numbered + Drop>(rows: &Rows<S>, ready: &mut ReadyList)
    ensures { ready.new ≡ listed_all_lost ready.old rows.now }
{
    for row in rows.rows.as_slice() {
        list_lost(row, ready);
    }
}
