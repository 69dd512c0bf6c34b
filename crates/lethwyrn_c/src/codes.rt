//! The codes that calls answer with, as in `lethwyrn.h`.

ghost use Rattle.std.specs.Prelude.{◌≡◌, pos};
ghost use Rattle.lethwyrn_c.specs.Codes as C;

use definitions::{GotAnswer, Kind, LogWhy, MoveFault, OwnFault, Progress, SessionRule, What};

pub(crate) const OK: i32 = 0;

pub(crate) const NO_PEER: i32 = 1;

pub(crate) const NO_MEMORY: i32 = 2;

pub(crate) const BAD_SESSION: i32 = 3;

pub(crate) const BAD_PLAYER: i32 = 4;

pub(crate) const BAD_LOG: i32 = 5;

pub(crate) const IN_USE: i32 = 6;

pub(crate) const NOTHING: i32 = 7;

pub(crate) const STORE_FIRST: i32 = 8;

pub(crate) const TOO_MANY: i32 = 9;

pub(crate) const NOT_NOW: i32 = 10;

pub(crate) const NO_ROOM: i32 = 17;

pub(crate) const WHOLE_LOG: i32 = 18;

pub(crate) const NO_SEALS: i32 = 19;

pub(crate) const NO_KEYS: i32 = 20;

pub(crate) const NO_FRAME: i32 = 21;

pub(crate) const USED: i32 = 22;

pub(crate) const NOT_VALID: i32 = 23;

pub(crate) const MORE: i32 = 30;

pub(crate) const HELLO: i32 = 31;

pub(crate) const WANT: i32 = 32;

pub(crate) const BAD_BYTE: i32 = 33;

pub(crate) const FOREIGN: i32 = 44;

pub(crate) const CAUGHT: i32 = 46;

/// Why a move isn't legal.
fn of_move(fault: &MoveFault) -> i32
    ensures { result ≡ pos (C.code_of_move fault.now) }
{
    match fault {
        MoveFault::Outside => 11,
        MoveFault::Wall => 12,
        MoveFault::TooFar => 13,
        MoveFault::StrikeOutside => 14,
        MoveFault::StrikeFar => 15,
        MoveFault::NoCharge => 16,
    }
}

/// Why a choice was refused.
pub(crate) fn of_fault(fault: &OwnFault) -> i32
    ensures { result ≡ pos (C.code_of_fault fault.now) }
{
    match fault {
        OwnFault::NotNow => NOT_NOW,
        OwnFault::Illegal(fault) => of_move(fault),
    }
}

/// What became of a frame.
pub(crate) fn of_answer(answer: &GotAnswer) -> i32
    ensures { result ≡ pos (C.code_of_answer answer.now) }
{
    match answer {
        GotAnswer::Taken => 40,
        GotAnswer::Stashed => 41,
        GotAnswer::Same => 42,
        GotAnswer::Far => 43,
        GotAnswer::Foreign => FOREIGN,
        GotAnswer::Closed => 45,
        GotAnswer::Caught(_) => CAUGHT,
    }
}

/// How far a peer came.
pub(crate) fn of_progress(progress: &Progress) -> i32
    ensures { result ≡ pos (C.code_of_progress progress.now) }
{
    match progress {
        Progress::Made(_) => 50,
        Progress::Choose => 51,
        Progress::Waits => 52,
        Progress::Done => 53,
        Progress::Caught(_) => CAUGHT,
    }
}

/// The number of a rule of session texts.
pub(crate) fn of_rule(rule: &SessionRule) -> u32
    ensures { result ≡ C.code_of_rule rule.now }
{
    match rule {
        SessionRule::S1 => 1,
        SessionRule::S2 => 2,
        SessionRule::S3 => 3,
        SessionRule::S4 => 4,
        SessionRule::S5 => 5,
        SessionRule::S6 => 6,
        SessionRule::S7 => 7,
        SessionRule::S8 => 8,
        SessionRule::S9 => 9,
        SessionRule::S10 => 10,
        SessionRule::S11 => 11,
        SessionRule::S12 => 12,
    }
}

/// The number of a kind of finding.
pub(crate) fn of_kind(kind: &Kind) -> u32
    ensures { result ≡ C.code_of_kind kind.now }
{
    match kind {
        Kind::TwoCommits => 1,
        Kind::BadOpening => 2,
        Kind::Collision => 3,
        Kind::Illegal => 4,
    }
}

/// Which frame of a turn.
pub(crate) fn of_what(what: &What) -> u32
    ensures { result ≡ C.code_of_what what.now }
{
    match what {
        What::Commit => 0,
        What::Reveal => 1,
    }
}

/// Why a log was refused.
pub(crate) fn of_log(why: &LogWhy) -> u32
    ensures { result ≡ C.code_of_log why.now }
{
    match why {
        LogWhy::TooLong => 1,
        LogWhy::Torn => 2,
        LogWhy::BadChain => 3,
        LogWhy::BadEntry => 4,
        LogWhy::NotReplayed => 5,
    }
}
