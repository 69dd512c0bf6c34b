//! What an answer to a frame says of the log, and how far a peer came.

ghost use Rattle.std.specs.Prelude.{◌≡◌};
ghost use Rattle.definitions.specs.Advance as A;
ghost use Rattle.peer_core.specs.Answers as S;

use definitions::{Finding, GotAnswer, Progress};

/// The finding of which the answer tells, if it does.
pub(crate) fn caught_in(answer: &GotAnswer) -> Option<Finding>
    ensures { result ≡ S.caught_in answer.now }
{
    match *answer {
        GotAnswer::Caught(finding) => Some(finding),
        _ => None,
    }
}

/// Whether a frame that the peer answered so stands in its log by this answer. One that was the same as a frame before, too far
/// ahead, of nobody else, or came after a finding doesn't.
pub fn is_logged(answer: &GotAnswer) -> bool
    ensures { result ≡ S.is_logged answer.now }
{
    matches!(
        answer,
        GotAnswer::Taken | GotAnswer::Stashed | GotAnswer::Caught(_)
    )
}

/// How far a peer came that made so many frames, by the finding of its log, if there is one, and by whether it might choose
/// and had no one to wait for before.
pub(crate) fn progress_of(
    found: Option<Finding>,
    count: u8,
    chooses: bool,
    no_needs: bool,
) -> Progress
    ensures { result ≡ S.progress_by found count (A.standing chooses no_needs) }
{
    if let Some(finding) = found {
        return Progress::Caught(finding);
    }
    if count > 0 {
        Progress::Made(count)
    } else if chooses {
        Progress::Choose
    } else if no_needs {
        Progress::Done
    } else {
        Progress::Waits
    }
}
