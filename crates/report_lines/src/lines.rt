//! The lines, each in a buffer of its own.

ghost use Rattle.std.specs.Prelude.{◌≡◌, ◌≤◌, length};
ghost use Rattle.definitions.specs.declared.frames.What.{What};
ghost use Rattle.hex.specs.Hex.{encode_lower};
ghost use Rattle.commitment.specs.Spelling.{frame_bytes};
ghost use Rattle.report_lines.specs.Lines as L;

use arrayvec::ArrayVec;
use commitment::put_turn;
use definitions::{
    Entry, Finding, GotAnswer, MoveFault, Need, OwnFault, PlayerId, Track, Turn, TurnFrame, What,
};
use hex::encode_to_slice;
use itoa::Buffer;
use text_fields::name_of_kind;

/// The most bytes of a word at the head of a line, its space with it.
const WORD_ROOM: usize = 16;

/// Room for the bytes of a frame.
const FRAME_ROOM: usize = 64;

/// Room for the digits that spell them.
const FRAME_DIGITS: usize = 128;

/// Room for a printed line.
pub const REPORT_ROOM: usize = 320;

/// A printed line.
pub type ReportLine = ArrayVec<u8, REPORT_ROOM>;

/// The name of what is wrong with a move: `M1` to `M6`.
pub fn name_of_fault(fault: MoveFault) -> &'static [u8]
    ensures { result.now ≡ L.fault_name fault }
{
    match fault {
        MoveFault::Outside => b"M1",
        MoveFault::Wall => b"M2",
        MoveFault::TooFar => b"M3",
        MoveFault::StrikeOutside => b"M4",
        MoveFault::StrikeFar => b"M5",
        MoveFault::NoCharge => b"M6",
    }
}

/// What is written about a finding.
#[tactic(auto, unfolding(crate::specs::Lines::caught_text))]
pub fn caught_line(finding: &Finding) -> ReportLine
    ensures { result.items ≡ L.caught_text finding.now }
{
    let mut line = ArrayVec::new();
    line.try_extend_from_slice(b"caught ").unwrap();
    line.try_extend_from_slice(Buffer::new().format(finding.player).as_bytes())
        .unwrap();
    line.push(b' ');
    line.try_extend_from_slice(Buffer::new().format(finding.turn).as_bytes())
        .unwrap();
    line.push(b' ');
    line.try_extend_from_slice(name_of_kind(finding.kind))
        .unwrap();
    line.push(b'\n');
    line
}

/// A line of this word, a player, and a place.
#[tactic(auto, unfolding(crate::specs::Lines::place_text))]
fn taken_line(word: &[u8], from: PlayerId, place: u64) -> ReportLine
    requires { length word.now ≤ WORD_ROOM }
    ensures { result.items ≡ L.place_text word.now from place }
{
    let mut line = ArrayVec::new();
    line.try_extend_from_slice(word).unwrap();
    line.try_extend_from_slice(Buffer::new().format(from).as_bytes())
        .unwrap();
    line.push(b' ');
    line.try_extend_from_slice(Buffer::new().format(place).as_bytes())
        .unwrap();
    line.push(b'\n');
    line
}

/// What is written about a player's greeting.
#[tactic(auto, unfolding(crate::specs::Lines::hello_text))]
pub fn hello_line(from: PlayerId) -> ReportLine
    ensures { result.items ≡ L.hello_text from }
{
    let mut line = ArrayVec::new();
    line.try_extend_from_slice(b"hello ").unwrap();
    line.try_extend_from_slice(Buffer::new().format(from).as_bytes())
        .unwrap();
    line.push(b'\n');
    line
}

/// What is written about the place whose frame a player wants.
pub fn want_line(from: PlayerId, place: u32) -> ReportLine
    ensures { result.items ≡ L.want_text from place }
{
    taken_line(b"want ", from, u64::from(place))
}

/// What is written about a byte at this place of what came from a player, with which no frame can go on.
pub fn bad_byte_line(from: PlayerId, place: u64) -> ReportLine
    ensures { result.items ≡ L.bad_text from place }
{
    taken_line(b"bad ", from, place)
}

/// What is written about a frame that is not the sender's.
#[tactic(auto, unfolding(crate::specs::Lines::foreign_text))]
fn foreign_line(from: PlayerId) -> ReportLine
    ensures { result.items ≡ L.foreign_text from }
{
    let mut line = ArrayVec::new();
    line.try_extend_from_slice(b"foreign ").unwrap();
    line.try_extend_from_slice(Buffer::new().format(from).as_bytes())
        .unwrap();
    line.push(b'\n');
    line
}

/// What is written about a frame of this place that came from a player, by the peer's answer.
pub fn got_line(from: PlayerId, place: u64, answer: &GotAnswer) -> ReportLine
    ensures { result.items ≡ L.got_text from place answer.now }
{
    match answer {
        GotAnswer::Taken => taken_line(b"taken ", from, place),
        GotAnswer::Stashed => taken_line(b"stashed ", from, place),
        GotAnswer::Same => taken_line(b"same ", from, place),
        GotAnswer::Far => taken_line(b"far ", from, place),
        GotAnswer::Foreign => foreign_line(from),
        GotAnswer::Caught(finding) => caught_line(finding),
        GotAnswer::Closed => ArrayVec::new(),
    }
}

/// The word for one of a turn's two frames, and a space.
pub fn name_of_what(what: What) -> &'static [u8]
    ensures { result.now ≡ L.what_name what }
{
    match what {
        What::Commit => b"commit ",
        What::Reveal => b"reveal ",
    }
}

/// What is written about a choice of the turn.
#[tactic(auto, unfolding(crate::specs::Lines::choice_text))]
pub fn choice_line(turn: Turn, fault: Option<OwnFault>) -> ReportLine
    ensures { result.items ≡ L.choice_text turn fault }
{
    let mut line = ArrayVec::new();
    match fault {
        None => {
            line.try_extend_from_slice(b"chosen ").unwrap();
            line.try_extend_from_slice(Buffer::new().format(turn).as_bytes())
                .unwrap();
        }
        Some(OwnFault::NotNow) => line.try_extend_from_slice(b"not now").unwrap(),
        Some(OwnFault::Illegal(fault)) => {
            line.try_extend_from_slice(b"illegal ").unwrap();
            line.try_extend_from_slice(name_of_fault(fault)).unwrap();
        }
    }
    line.push(b'\n');
    line
}

/// The hexadecimal text of a frame's bytes.
fn digits_of(frame: &TurnFrame) -> ArrayVec<u8, FRAME_DIGITS>
    ensures { result.items ≡ encode_lower (frame_bytes frame.now) }
{
    let mut bytes = [0; FRAME_ROOM];
    let count = put_turn(frame, &mut bytes);
    let mut digits = [0; FRAME_DIGITS];
    encode_to_slice(&bytes[..count], &mut digits[..2 * count]).unwrap();
    let mut text = ArrayVec::new();
    text.try_extend_from_slice(&digits[..2 * count]).unwrap();
    text
}

/// What is written about a frame that is made.
#[tactic(auto, unfolding(crate::specs::Lines::made_frame_text))]
fn frame_line(what: What, turn: Turn, frame: &TurnFrame) -> ReportLine
    ensures { result.items ≡ L.made_frame_text what turn frame.now }
{
    let mut line = ArrayVec::new();
    line.try_extend_from_slice(b"made ").unwrap();
    line.try_extend_from_slice(name_of_what(what)).unwrap();
    line.try_extend_from_slice(Buffer::new().format(turn).as_bytes())
        .unwrap();
    line.push(b' ');
    line.try_extend_from_slice(digits_of(frame).as_slice())
        .unwrap();
    line.push(b'\n');
    line
}

/// What is written about an entry that comes into the log.
pub fn entry_line(entry: &Entry) -> ReportLine
    ensures { result.items ≡ L.entry_report entry.now }
{
    match entry {
        Entry::Made(frame) => match frame {
            TurnFrame::Commit { turn, .. } => frame_line(What::Commit, *turn, frame),
            TurnFrame::Reveal { turn, .. } => frame_line(What::Reveal, *turn, frame),
        },
        Entry::Chose { .. } | Entry::Got(..) => ArrayVec::new(),
    }
}

/// What is written about a need.
#[tactic(auto, unfolding(crate::specs::Lines::need_text))]
pub fn need_line(need: &Need) -> ReportLine
    ensures { result.items ≡ L.need_text need.now }
{
    let mut line = ArrayVec::new();
    line.try_extend_from_slice(b"need ").unwrap();
    line.try_extend_from_slice(Buffer::new().format(need.player).as_bytes())
        .unwrap();
    line.push(b' ');
    line.try_extend_from_slice(Buffer::new().format(need.turn).as_bytes())
        .unwrap();
    line.push(b' ');
    line.try_extend_from_slice(name_of_what(need.what)).unwrap();
    line.try_extend_from_slice(Buffer::new().format(need.next).as_bytes())
        .unwrap();
    line.push(b'\n');
    line
}

/// What is written about a choice that is due.
#[tactic(auto, unfolding(crate::specs::Lines::due_text))]
pub fn due_line(turn: Turn) -> ReportLine
    ensures { result.items ≡ L.due_text turn }
{
    let mut line = ArrayVec::new();
    line.try_extend_from_slice(b"choose ").unwrap();
    line.try_extend_from_slice(Buffer::new().format(turn).as_bytes())
        .unwrap();
    line.push(b'\n');
    line
}

/// What is written about a player: how many of its turns are resolved, its track after them, and the next place of its stream, counted
/// from 0.
#[tactic(auto, unfolding(crate::specs::Lines::player_text))]
pub fn player_line(player: PlayerId, turns: u32, track: Track, next: u32) -> ReportLine
    ensures { result.items ≡ L.player_text player turns track next }
{
    let mut line = ArrayVec::new();
    line.try_extend_from_slice(b"player ").unwrap();
    line.try_extend_from_slice(Buffer::new().format(player).as_bytes())
        .unwrap();
    line.try_extend_from_slice(b" turns ").unwrap();
    line.try_extend_from_slice(Buffer::new().format(turns).as_bytes())
        .unwrap();
    line.try_extend_from_slice(b" at ").unwrap();
    line.try_extend_from_slice(Buffer::new().format(track.at.x).as_bytes())
        .unwrap();
    line.push(b' ');
    line.try_extend_from_slice(Buffer::new().format(track.at.y).as_bytes())
        .unwrap();
    line.try_extend_from_slice(b" charge ").unwrap();
    line.try_extend_from_slice(Buffer::new().format(track.charge).as_bytes())
        .unwrap();
    line.try_extend_from_slice(b" next ").unwrap();
    line.try_extend_from_slice(Buffer::new().format(next).as_bytes())
        .unwrap();
    line.push(b'\n');
    line
}

/// What is written about a player's score: how many of its turns are settled, and the hits that it gave and took in them.
#[tactic(auto, unfolding(crate::specs::Lines::score_text))]
pub fn score_line(turns: u32, given: u32, taken: u32) -> ReportLine
    ensures { result.items ≡ L.score_text turns given taken }
{
    let mut line = ArrayVec::new();
    line.try_extend_from_slice(b"score turns ").unwrap();
    line.try_extend_from_slice(Buffer::new().format(turns).as_bytes())
        .unwrap();
    line.try_extend_from_slice(b" given ").unwrap();
    line.try_extend_from_slice(Buffer::new().format(given).as_bytes())
        .unwrap();
    line.try_extend_from_slice(b" taken ").unwrap();
    line.try_extend_from_slice(Buffer::new().format(taken).as_bytes())
        .unwrap();
    line.push(b'\n');
    line
}

/// What is written about a player when all turns are over: its track after the last one, and the hits that it gave and took in all of
/// them.
#[tactic(auto, unfolding(crate::specs::Lines::world_line_text))]
pub fn world_line(player: PlayerId, track: Track, gave: u32, took: u32) -> ReportLine
    ensures { result.items ≡ L.world_line_text player track gave took }
{
    let mut line = ArrayVec::new();
    line.try_extend_from_slice(b"world ").unwrap();
    line.try_extend_from_slice(Buffer::new().format(player).as_bytes())
        .unwrap();
    line.try_extend_from_slice(b" at ").unwrap();
    line.try_extend_from_slice(Buffer::new().format(track.at.x).as_bytes())
        .unwrap();
    line.push(b' ');
    line.try_extend_from_slice(Buffer::new().format(track.at.y).as_bytes())
        .unwrap();
    line.try_extend_from_slice(b" charge ").unwrap();
    line.try_extend_from_slice(Buffer::new().format(track.charge).as_bytes())
        .unwrap();
    line.try_extend_from_slice(b" given ").unwrap();
    line.try_extend_from_slice(Buffer::new().format(gave).as_bytes())
        .unwrap();
    line.try_extend_from_slice(b" taken ").unwrap();
    line.try_extend_from_slice(Buffer::new().format(took).as_bytes())
        .unwrap();
    line.push(b'\n');
    line
}

/// The line that tells from which byte on a log is dropped.
#[tactic(auto, unfolding(crate::specs::Lines::dropped_line))]
pub fn dropped_line(at: u32) -> ReportLine
    ensures { result.items ≡ L.dropped_line at }
{
    let mut line = ArrayVec::new();
    line.try_extend_from_slice(b"dropped ").unwrap();
    line.try_extend_from_slice(Buffer::new().format(at).as_bytes())
        .unwrap();
    line.push(b'\n');
    line
}

/// What is written at the very end.
pub fn end_line() -> &'static [u8]
    ensures { result.now ≡ L.end_line_text }
{
    b"end\n"
}
