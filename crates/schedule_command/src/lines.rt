//! The lines of a schedule, each in a buffer of its own.

ghost use Rattle.std.specs.Prelude.{◌≡◌, ◌≤◌, length};
ghost use Rattle.schedule_command.specs.Lines as L;

use arrayvec::ArrayVec;
use definitions::{Entry, GotAnswer, OwnFault, PlayerId, Turn, TurnFrame, What};
use itoa::Buffer;
use line_io::text_of;
use report_lines::{name_of_fault, name_of_what};
use schedule::{Stand, Tally};

/// Room for a line, which has at most 140 bytes.
const LINE_ROOM: usize = 192;

/// The most bytes of the words before a player, their space with them.
const WORDS_ROOM: usize = 16;

/// A line.
pub(crate) type ScheduleText = ArrayVec<u8, LINE_ROOM>;

/// A line of these words and a player.
#[tactic(auto, unfolding(crate::specs::Lines::player_line))]
pub(crate) fn player_line(words: &[u8], player: PlayerId) -> ScheduleText
    requires { length words.now ≤ WORDS_ROOM }
    ensures { result.items ≡ L.player_line words.now player }
{
    let mut line = ArrayVec::new();
    line.try_extend_from_slice(words).unwrap();
    line.try_extend_from_slice(Buffer::new().format(player).as_bytes())
        .unwrap();
    line.push(b'\n');
    line
}

/// The line of a choice that is taken.
#[tactic(auto, unfolding(crate::specs::Lines::chosen_line))]
pub(crate) fn chosen_line(player: PlayerId, turn: Turn) -> ScheduleText
    ensures { result.items ≡ L.chosen_line player turn }
{
    let mut line = ArrayVec::new();
    line.try_extend_from_slice(b"chosen ").unwrap();
    line.try_extend_from_slice(Buffer::new().format(player).as_bytes())
        .unwrap();
    line.push(b' ');
    line.try_extend_from_slice(Buffer::new().format(turn).as_bytes())
        .unwrap();
    line.push(b'\n');
    line
}

/// Why a choice is refused.
fn name_of_refusal(fault: OwnFault) -> &'static [u8]
    ensures { result.now ≡ L.refusal_name fault }
{
    match fault {
        OwnFault::NotNow => b"not now",
        OwnFault::Illegal(fault) => name_of_fault(fault),
    }
}

/// The line of a choice that is refused.
#[tactic(auto, unfolding(crate::specs::Lines::refused_line))]
pub(crate) fn refused_line(player: PlayerId, fault: OwnFault) -> ScheduleText
    ensures { result.items ≡ L.refused_line player fault }
{
    let mut line = ArrayVec::new();
    line.try_extend_from_slice(b"refused ").unwrap();
    line.try_extend_from_slice(Buffer::new().format(player).as_bytes())
        .unwrap();
    line.push(b' ');
    line.try_extend_from_slice(name_of_refusal(fault)).unwrap();
    line.push(b'\n');
    line
}

/// The word for an answer to a frame.
fn name_of_answer(answer: &GotAnswer) -> &'static [u8]
    ensures { result.now ≡ L.answer_name answer.now }
{
    match answer {
        GotAnswer::Taken => b"taken",
        GotAnswer::Stashed => b"stashed",
        GotAnswer::Same => b"same",
        GotAnswer::Far => b"far",
        GotAnswer::Foreign => b"foreign",
        GotAnswer::Caught(_) => b"caught",
        GotAnswer::Closed => b"closed",
    }
}

/// The line of a frame of this place that came from one player to another.
#[tactic(auto, unfolding(crate::specs::Lines::got_line))]
pub(crate) fn got_line(from: PlayerId, to: PlayerId, place: u64, answer: &GotAnswer) -> ScheduleText
    ensures { result.items ≡ L.got_line from to place answer.now }
{
    let mut line = ArrayVec::new();
    line.try_extend_from_slice(b"got ").unwrap();
    line.try_extend_from_slice(Buffer::new().format(from).as_bytes())
        .unwrap();
    line.push(b' ');
    line.try_extend_from_slice(Buffer::new().format(to).as_bytes())
        .unwrap();
    line.push(b' ');
    line.try_extend_from_slice(Buffer::new().format(place).as_bytes())
        .unwrap();
    line.push(b' ');
    line.try_extend_from_slice(name_of_answer(answer)).unwrap();
    line.push(b'\n');
    line
}

/// The line of a frame that a player made.
#[tactic(auto, unfolding(crate::specs::Lines::made_line))]
fn made_line(player: PlayerId, what: What, turn: Turn) -> ScheduleText
    ensures { result.items ≡ L.made_line player what turn }
{
    let mut line = ArrayVec::new();
    line.try_extend_from_slice(b"made ").unwrap();
    line.try_extend_from_slice(Buffer::new().format(player).as_bytes())
        .unwrap();
    line.push(b' ');
    line.try_extend_from_slice(name_of_what(what)).unwrap();
    line.try_extend_from_slice(Buffer::new().format(turn).as_bytes())
        .unwrap();
    line.push(b'\n');
    line
}

/// The line of an entry that came into a player's log; nothing but of a frame that is made.
pub(crate) fn entry_line(player: PlayerId, entry: &Entry) -> ScheduleText
    ensures { result.items ≡ L.entry_line player entry.now }
{
    match entry {
        Entry::Made(frame) => match frame {
            TurnFrame::Commit { turn, .. } => made_line(player, What::Commit, *turn),
            TurnFrame::Reveal { turn, .. } => made_line(player, What::Reveal, *turn),
        },
        Entry::Chose { .. } | Entry::Got(..) => ArrayVec::new(),
    }
}

/// The line of how often a player's peer gave each answer.
#[tactic(auto, unfolding(crate::specs::Lines::tally_line))]
pub(crate) fn tally_line(player: PlayerId, tally: Tally) -> ScheduleText
    ensures { result.items ≡ L.tally_line player tally }
{
    let mut line = ArrayVec::new();
    line.try_extend_from_slice(b"tally ").unwrap();
    line.try_extend_from_slice(Buffer::new().format(player).as_bytes())
        .unwrap();
    line.try_extend_from_slice(b" taken ").unwrap();
    line.try_extend_from_slice(Buffer::new().format(tally.taken).as_bytes())
        .unwrap();
    line.try_extend_from_slice(b" stashed ").unwrap();
    line.try_extend_from_slice(Buffer::new().format(tally.stashed).as_bytes())
        .unwrap();
    line.try_extend_from_slice(b" same ").unwrap();
    line.try_extend_from_slice(Buffer::new().format(tally.same).as_bytes())
        .unwrap();
    line.try_extend_from_slice(b" far ").unwrap();
    line.try_extend_from_slice(Buffer::new().format(tally.far).as_bytes())
        .unwrap();
    line.try_extend_from_slice(b" foreign ").unwrap();
    line.try_extend_from_slice(Buffer::new().format(tally.foreign).as_bytes())
        .unwrap();
    line.try_extend_from_slice(b" caught ").unwrap();
    line.try_extend_from_slice(Buffer::new().format(tally.caught).as_bytes())
        .unwrap();
    line.try_extend_from_slice(b" closed ").unwrap();
    line.try_extend_from_slice(Buffer::new().format(tally.closed).as_bytes())
        .unwrap();
    line.push(b'\n');
    line
}

/// The line of a frame that a player lacks and another one made.
#[tactic(auto, unfolding(crate::specs::Lines::behind_line))]
fn behind_line(player: PlayerId, whose: PlayerId, place: u32) -> ScheduleText
    ensures { result.items ≡ L.behind_line player whose place }
{
    let mut line = ArrayVec::new();
    line.try_extend_from_slice(b"stand behind ").unwrap();
    line.try_extend_from_slice(Buffer::new().format(player).as_bytes())
        .unwrap();
    line.push(b' ');
    line.try_extend_from_slice(Buffer::new().format(whose).as_bytes())
        .unwrap();
    line.push(b' ');
    line.try_extend_from_slice(Buffer::new().format(place).as_bytes())
        .unwrap();
    line.push(b'\n');
    line
}

/// The line of how a match stands.
pub(crate) fn stand_line(stand: Stand) -> ScheduleText
    ensures { result.items ≡ L.stand_line stand }
{
    match stand {
        Stand::Caught(player) => player_line(b"stand caught ", player),
        Stand::Moving(player) => player_line(b"stand moving ", player),
        Stand::Behind(player, whose, place) => behind_line(player, whose, place),
        Stand::Held(player) => player_line(b"stand held ", player),
        Stand::Finished => text_of(b"stand finished\n"),
    }
}
