//! Laws of histories: functions that do nothing, whose clauses are proved.

ghost use Rattle.socket_station.specs.Laws.{ClosedStaysClosed, OpensByItsItem, PollFaultsRise, KeepFaultsRise, LinkFaultsRise};

/// A socket number that is closed stays so, whatever a station answers next: no number is used twice. And a number is open after an item
/// only where it was before, or where that item opens it.
pub fn numbers_are_used_once()
    ensures closed { ClosedStaysClosed }
    ensures open { OpensByItsItem }
{}

/// Each of the three counts of faults rises by one with the failure of a call of its kind, and with nothing else.
pub fn faults_are_counted()
    ensures polls { PollFaultsRise }
    ensures keeps { KeepFaultsRise }
    ensures links { LinkFaultsRise }
{}
