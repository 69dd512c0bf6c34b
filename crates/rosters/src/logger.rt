//! Where a live logger is, and the text that says so.

ghost use Rattle.std.specs.Prelude.{◌≡◌, ℕ, List, IfOk, Ok};
ghost use Rattle.text_lines.specs.Lines.{ended_lines_of};
ghost use Rattle.text_lines.specs.Reading.{line_at};
ghost use Rattle.text_lines.specs.Answers.{Says};
ghost use Rattle.text_fields.specs.declared.fault.TextFault.TheVariants.{At};
ghost use Rattle.rosters.specs.LoggerText.{IsAnswer, IsLoggerFrom, logger_at, logger_said};

use crate::addr::Addr;
use crate::fields::{addr_then, pass_then};
use crate::reading::{me_at, read_end};
use text_fields::TextFault;
use text_lines::{one_within_at, take_line};

/// Where a live logger listens, and the pass by which it knows the player.
#[derive(Clone, Copy, Debug, PartialEq, Eq)]
pub struct Logger {
    /// Where it listens.
    pub addr: Addr,
    /// The pass that is shown to it.
    pub shows: [u8; 16],
}

/// The logger that a line says.
#[tactic(auto, unfolding(crate::specs::LoggerText::logger_said))]
fn read_line(line: &[u8]) -> Option<Logger>
    ensures { result ≡ logger_said line.now }
{
    let (addr, rest) = addr_then(b' ', line.strip_prefix(b"logger ")?)?;
    let (shows, rest) = pass_then(b'\n', rest)?;
    if rest.is_empty() {
        Some(Logger { addr, shows })
    } else {
        None
    }
}

/// The logger, which line 3 says, and the text that follows the line.
fn line_three(text: &[u8]) -> Result<(Logger, &[u8]), TextFault>
    ensures { Says (λ x. (x.0, ended_lines_of x.1.now)) result (line_at (At 3) logger_said (ended_lines_of text.now)) }
{
    let (line, rest) = take_line(text);
    match read_line(line) {
        None => Err(TextFault::At(3)),
        Some(logger) => Ok((logger, rest)),
    }
}

/// The logger of a text, or the first line at fault.
#[tactic(auto, unfolding(crate::specs::LoggerText::logger_by))]
fn logger_of(text: &[u8]) -> Result<Logger, TextFault>
    ensures { Says (λ l. l) result (logger_at text.now) }
{
    let (_version, rest) = one_within_at(TextFault::At(1), b"roster", 1, 1, text)?;
    let (_own, rest) = me_at(rest)?;
    let (logger, rest) = line_three(rest)?;
    read_end(4, rest)?;
    Ok(logger)
}

/// Reads where a player's live logger is: `roster 1`, the player's own address, the logger's address
/// and the pass that is shown to it, and `end`. It takes no memory.
///
/// The error is the number of the first line that is not in this grammar, from 1: one of another
/// form, a number of an address above 255, a port that is 0 or above 65535, a pass of other than 32
/// lower-case digits, a line that is missing or stands after `end`.
pub fn read_logger(text: &[u8]) -> Result<Logger, u32>
    // What is read is said by this text.
    ensures found { IfOk result (λ l. IsLoggerFrom l text.now) }
    // Each text that says a logger is read as that logger.
    ensures only { (l : Logger) → IsLoggerFrom l text.now → result ≡ Ok l }
    // Which line is at fault.
    ensures exact { IsAnswer (logger_at text.now) result }
{
    match logger_of(text) {
        Ok(logger) => Ok(logger),
        Err(TextFault::At(line)) => Err(line),
        // No memory is taken, so that none is wanting.
        Err(TextFault::Memory) => Err(0),
    }
}
