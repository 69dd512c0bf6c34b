//! A file of cases, line by line: what it gives a name, and its cases, each of which is played
//! once its last line was read.

use crate::book::Book;
use crate::cases::Case;
use crate::comparing::differs;
use crate::faults::Fault;
use crate::lines::{Line, line_of};
use crate::logs::{entry_bytes, writer_of};
use crate::playing::play;
use crate::spelling::marked;
use session_log::LogWriter;
use std::alloc::{AllocError, Global};

/// What the lines behind the last item say.
#[derive(Drop)]
enum Open {
    /// Bytes of the last name.
    Named,
    /// Entries of the last name, which is a log's.
    Log(LogWriter),
    Case(Case),
}

/// What came of a file: how many cases were played, whether each came out as it says, and what is
/// to be told otherwise.
#[derive(Drop)]
pub struct Played {
    pub count: u32,
    pub is_right: bool,
    pub report: String,
}

/// Reads a file's lines.
#[derive(Drop)]
struct Reader {
    book: Book,
    open: Option<Open>,
}

/// Whether an item begins with this word.
fn begins_item(word: &str) -> bool {
    matches!(word, "session" | "text" | "bytes" | "log" | "case")
}

impl Reader {
    /// Gives bytes a name, by the words `NAME DIGITS`.
    fn name_bytes(&mut self, words: &str) -> Result<(), Fault> {
        let line = line_of(words);
        self.book.begin(line.word)?;
        if let Some(bytes) = marked(&self.book, "x", line.rest)? {
            self.book.add(bytes.as_slice())?;
        }
        Ok(())
    }

    /// Begins a log, by the words `NAME of SESSION OWNER`.
    fn name_log(&mut self, words: &str) -> Result<Open, Fault> {
        let Some((name, words)) = words.split_once(" of ") else {
            return Err(Fault::Wanted("log NAME of SESSION OWNER"));
        };
        let writer = writer_of(&mut self.book, words)?;
        self.book.begin(name)?;
        Ok(Open::Log(writer))
    }

    /// Begins the item of a line of this number.
    fn begin(&mut self, number: u32, line: Line<'_>) -> Result<Option<Open>, Fault> {
        match line.word {
            "case" => {
                let sentence = String::from_str(self.book.alloc, line.rest)?;
                let case = Case::new(self.book.alloc, number, sentence);
                Ok(Some(Open::Case(case)))
            }
            "log" => Ok(Some(self.name_log(line.rest)?)),
            "bytes" => {
                self.name_bytes(line.rest)?;
                Ok(None)
            }
            _ => {
                self.book.begin(line.rest)?;
                Ok(Some(Open::Named))
            }
        }
    }

    /// Takes a line with a mark.
    fn take_marked(&mut self, bytes: Vec<u8>) -> Result<(), Fault> {
        match &mut self.open {
            Some(Open::Named) => {
                self.book.add(bytes.as_slice())?;
                Ok(())
            }
            Some(Open::Case(case)) => case.say_marked(bytes),
            _ => Err(Fault::Wanted("a line without a mark")),
        }
    }

    /// Takes a line of the open item, which has no mark.
    fn take_word(&mut self, line: Line<'_>) -> Result<(), Fault> {
        match &mut self.open {
            Some(Open::Log(writer)) => {
                let bytes = entry_bytes(&self.book, writer, line)?;
                self.book.add(bytes.as_slice())?;
                Ok(())
            }
            Some(Open::Case(case)) => case.say(&mut self.book, line),
            _ => Err(Fault::Wanted("session, text, bytes, log or case")),
        }
    }

    /// Takes a line of this number.
    fn take(&mut self, number: u32, text: &str) -> Result<(), Fault> {
        if text.is_empty() || text.starts_with('#') {
            return Ok(());
        }
        let line = line_of(text);
        if begins_item(line.word) {
            self.open = self.begin(number, line)?;
            return Ok(());
        }
        match marked(&self.book, line.word, line.rest)? {
            Some(bytes) => self.take_marked(bytes),
            None => self.take_word(line),
        }
    }

    /// The case that is open, which is over now.
    fn closed(&mut self) -> Option<Case> {
        match self.open.take() {
            Some(Open::Case(case)) => Some(case),
            _ => None,
        }
    }
}

impl Played {
    /// Nothing was played yet.
    fn new(alloc: Global) -> Played {
        Played {
            count: 0,
            is_right: true,
            report: String::new(alloc),
        }
    }

    /// Tells what is wrong at a line of the file.
    fn tell(&mut self, path: &str, line: u32, what: &str) -> Result<(), AllocError> {
        self.is_right = false;
        let alloc = *self.report.allocator();
        let text = format!(in alloc; "{path} {line}: {what}\n")?;
        self.report.push_str(text.as_str())
    }

    /// Tells what is wrong with a line that can't be taken.
    fn tell_fault(&mut self, path: &str, line: u32, fault: Fault) -> Result<(), AllocError> {
        match fault {
            Fault::Memory => Err(AllocError),
            Fault::Wanted(what) => {
                let alloc = *self.report.allocator();
                let text = format!(in alloc; "wanted here: {what}")?;
                self.tell(path, line, text.as_str())
            }
        }
    }

    /// Plays a case, and tells how it comes out where that isn't as it says.
    fn play(&mut self, alloc: Global, path: &str, case: Case) -> Result<(), AllocError> {
        self.count = self.count.saturating_add(1);
        let line = case.line;
        match outcome(alloc, case) {
            Err(fault) => self.tell_fault(path, line, fault),
            Ok(None) => Ok(()),
            Ok(Some(said)) => {
                self.tell(path, line, said.sentence.as_str())?;
                self.report.push_str(said.difference.as_str())
            }
        }
    }
}

/// A case that comes out otherwise than it says.
#[derive(Drop)]
struct Otherwise {
    sentence: String,
    difference: String,
}

/// How a case comes out, where that is otherwise than it says.
fn outcome(alloc: Global, case: Case) -> Result<Option<Otherwise>, Fault> {
    let Case {
        sentence,
        run,
        wants,
        ..
    } = case;
    if wants.is_nothing() {
        return Err(Fault::Wanted("a line that says what must come out"));
    }
    let ran = play(alloc, run)?;
    match differs(alloc, &wants, &ran)? {
        None => Ok(None),
        Some(difference) => Ok(Some(Otherwise {
            sentence,
            difference,
        })),
    }
}

/// Takes the line of this number. Where it begins an item, the case before it is played.
fn take_line(
    reader: &mut Reader,
    played: &mut Played,
    path: &str,
    number: u32,
    text: &str,
) -> Result<bool, AllocError> {
    if begins_item(line_of(text).word)
        && let Some(case) = reader.closed()
    {
        played.play(reader.book.alloc, path, case)?;
    }
    match reader.take(number, text) {
        Ok(()) => Ok(true),
        Err(fault) => {
            played.tell_fault(path, number, fault)?;
            Ok(false)
        }
    }
}

/// Plays the cases of a text, which is that of the file at this path. Behind a line that can't be
/// taken it reads none.
pub fn play_text(alloc: Global, path: &str, text: &str) -> Result<Played, AllocError> {
    let mut played = Played::new(alloc);
    let mut reader = Reader {
        book: Book::new(alloc),
        open: None,
    };
    let mut number = 0u32;
    for line in text.lines() {
        number = number.saturating_add(1);
        if !take_line(&mut reader, &mut played, path, number, line)? {
            return Ok(played);
        }
    }
    if let Some(case) = reader.closed() {
        played.play(alloc, path, case)?;
    }
    Ok(played)
}
