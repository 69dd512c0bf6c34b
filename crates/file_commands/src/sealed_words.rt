//! The words of the command to judge by the players' roots.

ghost use Rattle.std.specs.Prelude.{◌≡◌, map, option_map};
ghost use Rattle.file_commands.specs.SealedWords.{sealed_judging_in, sealed_judging_said};

/// What the words say: the session's file, the file of an exhibit with seals, and that of the roots.
#[derive(Clone, Copy)]
pub struct SealedJudgeWords<'a> {
    pub session: &'a [u8],
    pub evidence: &'a [u8],
    pub roots: &'a [u8],
}

/// What the words after the command's name say, which are `SESSION EVIDENCE ROOTS`, if they are of
/// this form.
pub fn read_sealed_judge_words(words: &[Vec<u8>]) -> Option<SealedJudgeWords<'_>>
    ensures { option_map sealed_judging_said result ≡ sealed_judging_in (map (λ w. w.items) words.now) }
{
    match words {
        [session, evidence, roots] => Some(SealedJudgeWords {
            session: session.as_slice(),
            evidence: evidence.as_slice(),
            roots: roots.as_slice(),
        }),
        _ => None,
    }
}
