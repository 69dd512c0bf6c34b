//! Laws of histories, by their items alone: functions that do nothing, whose clauses are proved.

ghost use Rattle.loop_laws.specs.Laws.{FramesAreGiven, FramesAreHandled, ReadsAreListed, WritesAreListed, CountsAreReached, AskedAreCounted, TakesHaveBytes, GivesHaveBytes, SyncsHaveEntries, ClosingsAreLast, DialsAreWanted, DialsHavePolls, DialsFindNone, StrangersAreShort, TakesAreFew, GivesAreFew, SyncsAreFew, IdleReadsAreFew, IdleWritesAreFew, ClosingsAreFew, DialsAreFew, ShutsHaveCauses};

/// The bytes given on a socket are a front of frames that are spelled one after the other: an own
/// HELLO, then WANT frames and own frames of the log, in the order of their places. None but the
/// HELLO is given before a HELLO came on the socket with the pass that is wanted of its player.
pub fn frames_are_given()
    ensures { FramesAreGiven }
{}

/// Each frame that comes on a named socket is handled, in its order, before the loop takes
/// further bytes or polls: one that is new to the log at its turn is logged as received, as long
/// as the log has no finding and no keep fails.
pub fn frames_are_handled()
    ensures { FramesAreHandled }
{}

/// A socket of which a read found nothing is read again only after a poll listed it. So it is of
/// a socket to which a write was refused, and the next write.
pub fn sockets_are_listed()
    ensures reads { ReadsAreListed }
    ensures writes { WritesAreListed }
{}

/// The own frames that count as given to a player are those below a place that it asked for, or
/// up to one that was wholly given to it, each on a socket that its pass had named. `Loop::given`
/// answers by this count. And it reaches each place that the player asked for on a socket of its
/// own, before the last piece that was taken there.
pub fn counts_are_reached()
    ensures reached { CountsAreReached }
    ensures asked { AskedAreCounted }
{}

/// Each kind of item comes only so often. Where bytes are taken or given there is one at least,
/// between two syncs an entry is kept, and after the end of a socket nothing is done with it.
/// What is read or written in vain comes once for each opening and each poll that lists the
/// socket, by `sockets_are_listed`.
pub fn items_are_paid_for()
    ensures takes { TakesHaveBytes }
    ensures gives { GivesHaveBytes }
    ensures syncs { SyncsHaveEntries }
    ensures closings { ClosingsAreLast }
{}

/// A player is dialled that the roster has above the own one, at its address, and once for each
/// poll. No socket that was dialled for it is open then. The rules want the same of a socket that
/// its HELLO named. One that was accepted and isn't named yet doesn't count.
pub fn dials_have_causes()
    ensures wanted { DialsAreWanted }
    ensures polls { DialsHavePolls }
    ensures sockets { DialsFindNone }
{}

/// Until a frame came on a socket, and with the piece that brings one, no more bytes are taken
/// there than a HELLO has. So no frame comes in one piece with a HELLO.
pub fn strangers_are_short()
    ensures { StrangersAreShort }
{}

/// How many items a history has is bounded by what came, by what was due and by the polls. No more
/// pieces are taken or given than bytes, and no more syncs are made than entries are kept, and one.
/// A read in vain or a refused write comes on each socket once, and once for each poll that lists
/// it. A socket ends once, and a player is dialled once, and once for each poll.
pub fn items_are_few()
    ensures takes { TakesAreFew }
    ensures gives { GivesAreFew }
    ensures syncs { SyncsAreFew }
    ensures reads { IdleReadsAreFew }
    ensures writes { IdleWritesAreFew }
    ensures closings { ClosingsAreFew }
    ensures dials { DialsAreFew }
{}

/// A socket is shut only where an item is the cause, or where all was read of it that may be. Such
/// an item is a poll that opened it, with which more were opened than are accepted. Or it is a
/// piece that came on it with a bad byte, with no HELLO that names its player, a further HELLO, or
/// a frame of another player; or a piece that named another socket as its player.
pub fn shuts_have_causes()
    ensures { ShutsHaveCauses }
{}
