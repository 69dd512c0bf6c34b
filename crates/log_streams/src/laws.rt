//! A law of streams: a function that does nothing, whose clause is proved.

ghost use Rattle.log_streams.specs.Laws.{LaterBytesGiveNothing};

/// What comes after the byte that closed a player changes neither its list nor whose log it is:
/// its stream may be cut at that byte.
pub fn later_bytes_give_nothing()
    ensures { LaterBytesGiveNothing }
{}
