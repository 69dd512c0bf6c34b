//! The words of the command.

ghost use Rattle.std.specs.Prelude.{◌≡◌, map, option_map};
ghost use Rattle.file_commands.specs.JudgeWords.{judging_in, judging_said};

/// What the words say: the session's file, and the file of an exhibit.
#[derive(Clone, Copy)]
pub struct JudgeWords<'a> {
    pub session: &'a [u8],
    pub evidence: &'a [u8],
}

/// What the words behind the command's name say, which are `SESSION EVIDENCE`, if they are of this form.
pub fn read_judge_words(words: &[Vec<u8>]) -> Option<JudgeWords<'_>>
    ensures { option_map judging_said result ≡ judging_in (map (λ w. w.items) words.now) }
{
    match words {
        [session, evidence] => Some(JudgeWords {
            session: session.as_slice(),
            evidence: evidence.as_slice(),
        }),
        _ => None,
    }
}
