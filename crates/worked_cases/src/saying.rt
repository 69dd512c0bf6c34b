//! What the lines of a case say.

use crate::book::Book;
use crate::cases::{Case, Given, How, Mail, Part, Posted, Run, Socket, Wants};
use crate::faults::Fault;
use crate::lines::{Line, line_of, number};
use crate::spelling::spelled;
use std::alloc::Global;

/// A copy of the bytes of this name.
fn copy_of(book: &Book, name: &str) -> Result<Vec<u8>, Fault> {
    let bytes = book.find(name)?;
    let copy = Vec::from_slice(book.alloc, bytes)?;
    Ok(copy)
}

/// The numbers of a text.
fn numbers_of(book: &Book, text: &str) -> Result<Vec<u32>, Fault> {
    let mut numbers = Vec::new(book.alloc);
    for word in text.split(' ') {
        let number = number(word)?;
        numbers.push(number)?;
    }
    Ok(numbers)
}

/// Refuses what a case says for the second time.
fn refuse_again(is_said: bool) -> Result<(), Fault> {
    if is_said {
        return Err(Fault::Wanted("this once in a case"));
    }
    Ok(())
}

/// The number of a text is wanted from now on.
fn want_count(wanted: &mut Option<usize>, text: &str) -> Result<Part, Fault> {
    refuse_again(wanted.is_some())?;
    let count = number(text)?;
    *wanted = Some(count);
    Ok(Part::Nothing)
}

/// These numbers are wanted from now on.
fn want_numbers(wanted: &mut Vec<u32>, book: &Book, text: &str) -> Result<Part, Fault> {
    refuse_again(!wanted.is_empty())?;
    *wanted = numbers_of(book, text)?;
    Ok(Part::Nothing)
}

/// A text is wanted from now on, of which no line stands yet. Its lines are this part.
fn want_text(alloc: Global, wanted: &mut Option<Vec<u8>>, part: Part) -> Result<Part, Fault> {
    refuse_again(wanted.is_some())?;
    *wanted = Some(Vec::new(alloc));
    Ok(part)
}

/// The bytes of a socket are wanted from now on, of which none stands yet.
fn want_given(alloc: Global, wanted: &mut Vec<Given>, text: &str) -> Result<Part, Fault> {
    let socket = number::<u32>(text)?;
    refuse_again(wanted.as_slice().iter().any(|given| given.socket == socket))?;
    let bytes = Vec::new(alloc);
    wanted.push(Given { socket, bytes })?;
    Ok(Part::Given)
}

/// The datagram of the words `NUMBER PORT` is wanted from now on, of which no byte stands yet.
fn want_sent(alloc: Global, wanted: &mut Vec<Posted>, words: &str) -> Result<Part, Fault> {
    let line = line_of(words);
    let place = number::<u32>(line.word)?;
    let port = number::<u16>(line.rest)?;
    refuse_again(wanted.as_slice().iter().any(|sent| sent.number == place))?;
    wanted.push(Posted {
        number: place,
        port,
        bytes: Vec::new(alloc),
    })?;
    Ok(Part::Sent)
}

/// These calls fail from now on.
fn fail_calls(calls: &mut Vec<u32>, numbers: Vec<u32>) -> Result<(), Fault> {
    refuse_again(!calls.is_empty())?;
    *calls = numbers;
    Ok(())
}

/// The one call of these numbers fails from now on.
fn fail_one_call(call: &mut Option<u32>, numbers: &[u32]) -> Result<(), Fault> {
    refuse_again(call.is_some())?;
    let [number] = numbers else {
        return Err(Fault::Wanted("one number"));
    };
    *call = Some(*number);
    Ok(())
}

/// The last of the sockets brings its bytes so.
fn mark_last(sockets: &mut Vec<Socket>, how: How) {
    if let Some(socket) = sockets.last_mut() {
        socket.mark(how);
    }
}

/// The last of the sockets brings these bytes too.
fn add_brought(sockets: &mut Vec<Socket>, bytes: &[u8]) -> Result<(), Fault> {
    if let Some(socket) = sockets.last_mut() {
        socket.bytes.extend_from_slice(bytes)?;
    }
    Ok(())
}

/// The last of the sockets is to be given these bytes too.
fn add_given(wanted: &mut Vec<Given>, bytes: &[u8]) -> Result<(), Fault> {
    if let Some(given) = wanted.last_mut() {
        given.bytes.extend_from_slice(bytes)?;
    }
    Ok(())
}

/// The last of the datagrams has these bytes too.
fn add_mail(mails: &mut Vec<Mail>, bytes: &[u8]) -> Result<(), Fault> {
    if let Some(mail) = mails.last_mut() {
        mail.bytes.extend_from_slice(bytes)?;
    }
    Ok(())
}

/// The last of the datagrams that are wanted is to have these bytes too.
fn add_sent(wanted: &mut Vec<Posted>, bytes: &[u8]) -> Result<(), Fault> {
    if let Some(sent) = wanted.last_mut() {
        sent.bytes.extend_from_slice(bytes)?;
    }
    Ok(())
}

impl Run {
    /// The file `s` is the text of the session of this name, over which frames are spelled now.
    fn say_over(&mut self, book: &mut Book, name: &str) -> Result<Part, Fault> {
        let text = copy_of(book, name)?;
        book.go_over(name)?;
        let own = spelled(book, "s")?;
        self.files.add(own, text)?;
        Ok(Part::Nothing)
    }

    /// The words are those of the text, between its spaces.
    fn say_words(&mut self, book: &Book, text: &str) -> Result<Part, Fault> {
        if !text.is_empty() {
            for word in text.split(' ') {
                let word = Vec::from_slice(book.alloc, word.as_bytes())?;
                self.words.push(word)?;
            }
        }
        Ok(Part::Words)
    }

    /// There is a file, by the words `NAME` or `NAME is TEXT`.
    fn say_file(&mut self, book: &Book, words: &str) -> Result<Part, Fault> {
        match words.split_once(" is ") {
            None => {
                let name = spelled(book, words)?;
                self.files.add(name, Vec::new(book.alloc))?;
                Ok(Part::File)
            }
            Some((name, text)) => {
                let name = spelled(book, name)?;
                let bytes = copy_of(book, text)?;
                self.files.add(name, bytes)?;
                Ok(Part::Nothing)
            }
        }
    }

    /// There is an input, perhaps one that is the text of a name.
    fn say_input(&mut self, book: &Book, words: &str) -> Result<Part, Fault> {
        if let Some(name) = words.strip_prefix("is ") {
            self.input = copy_of(book, name)?;
        }
        Ok(Part::Input)
    }

    /// These calls of an object fail, by the words `OBJECT NUMBER..`.
    fn say_fails(&mut self, book: &Book, words: &str) -> Result<Part, Fault> {
        let line = line_of(words);
        let numbers = numbers_of(book, line.rest)?;
        match line.word {
            "files" => fail_calls(&mut self.fails.files, numbers)?,
            "input" => fail_calls(&mut self.fails.input, numbers)?,
            "output" => fail_calls(&mut self.fails.output, numbers)?,
            "station" => fail_one_call(&mut self.fails.station, numbers.as_slice())?,
            "post" => fail_one_call(&mut self.fails.post, numbers.as_slice())?,
            _ => return Err(Fault::Wanted("files, input, output, station or post")),
        }
        Ok(Part::Nothing)
    }

    /// A socket comes, and what it brings comes in pieces of so many bytes.
    fn say_socket(&mut self, book: &Book, size: &str) -> Result<Part, Fault> {
        let size = number::<usize>(size)?;
        self.sockets.push(Socket::new(book.alloc, size))?;
        Ok(Part::Socket)
    }

    /// What the next socket brings that is dialled comes in pieces of so many bytes.
    fn say_dialled(&mut self, book: &Book, size: &str) -> Result<Part, Fault> {
        let size = number::<usize>(size)?;
        self.dialled.push(Socket::new(book.alloc, size))?;
        Ok(Part::Dialled)
    }

    /// A datagram comes, before the poll of this number, counted from 0.
    fn say_mail(&mut self, book: &Book, poll: &str) -> Result<Part, Fault> {
        let poll = number::<u32>(poll)?;
        let bytes = Vec::new(book.alloc);
        self.mails.push(Mail { poll, bytes })?;
        Ok(Part::Mail)
    }

    /// How the socket of this part brings its bytes, if the part is that of one.
    fn say_how(&mut self, part: Part, how: How) -> Result<Part, Fault> {
        match part {
            Part::Socket => mark_last(&mut self.sockets, how),
            Part::Dialled => mark_last(&mut self.dialled, how),
            _ => return Err(Fault::Wanted("socket or dialled before this")),
        }
        Ok(part)
    }

    /// What a line without a mark says of the run. None where it says nothing of that. The line
    /// before it said this part.
    fn say(&mut self, book: &mut Book, part: Part, line: Line<'_>) -> Result<Option<Part>, Fault> {
        let part = match line.word {
            "over" => self.say_over(book, line.rest)?,
            "words" => self.say_words(book, line.rest)?,
            "file" => self.say_file(book, line.rest)?,
            "input" => self.say_input(book, line.rest)?,
            "fail" => self.say_fails(book, line.rest)?,
            "room" => self.say_room(line.rest)?,
            "socket" => self.say_socket(book, line.rest)?,
            "sockets" => self.say_sockets(book, line.rest)?,
            "dialled" => self.say_dialled(book, line.rest)?,
            "mail" => self.say_mail(book, line.rest)?,
            "slow" => self.say_how(part, How::Slow)?,
            "lost" => self.say_how(part, How::Lost)?,
            _ => return Ok(None),
        };
        Ok(Some(part))
    }

    /// So many sockets come that bring nothing.
    fn say_sockets(&mut self, book: &Book, count: &str) -> Result<Part, Fault> {
        let count = number::<u32>(count)?;
        for _ in 0..count {
            self.sockets.push(Socket::new(book.alloc, 1))?;
        }
        Ok(Part::Nothing)
    }

    /// The station has room for so many items, and perhaps for so many bytes, by the words `ITEMS`
    /// or `ITEMS BYTES`.
    fn say_room(&mut self, words: &str) -> Result<Part, Fault> {
        let line = line_of(words);
        self.room = number(line.word)?;
        if !line.rest.is_empty() {
            self.carries = number(line.rest)?;
        }
        Ok(Part::Nothing)
    }

    /// One word more. A line's LF isn't part of it.
    fn add_word(&mut self, mut word: Vec<u8>) -> Result<(), Fault> {
        if word.as_slice().last() == Some(&b'\n') {
            let _ = word.pop();
        }
        self.words.push(word)?;
        Ok(())
    }
}

impl Wants {
    /// What a line says of what must come out.
    fn say(&mut self, book: &Book, line: Line<'_>) -> Result<Part, Fault> {
        match line.word {
            "writes" => want_text(book.alloc, &mut self.writes, Part::Writes),
            "among" => want_text(book.alloc, &mut self.among, Part::Among),
            "ends" => want_text(book.alloc, &mut self.ends, Part::Ends),
            "lines" => want_count(&mut self.lines, line.rest),
            "status" => want_count(&mut self.status, line.rest),
            "polls" => want_count(&mut self.polls, line.rest),
            "keeps" => want_count(&mut self.keeps, line.rest),
            "gives" => want_count(&mut self.gives, line.rest),
            "given" => want_given(book.alloc, &mut self.given, line.rest),
            "sends" => want_count(&mut self.sends, line.rest),
            "sent" => want_sent(book.alloc, &mut self.sent, line.rest),
            "open" => want_numbers(&mut self.open, book, line.rest),
            "shut" => want_numbers(&mut self.shut, book, line.rest),
            _ => Err(Fault::Wanted("a word of the format")),
        }
    }
}

impl Case {
    /// What a line without a mark says.
    pub fn say(&mut self, book: &mut Book, line: Line<'_>) -> Result<(), Fault> {
        let said = self.run.say(book, self.part, line)?;
        self.part = match said {
            Some(part) => part,
            None => self.wants.say(book, line)?,
        };
        Ok(())
    }

    /// What a line with a mark says, of the part that the last line without one said.
    pub fn say_marked(&mut self, bytes: Vec<u8>) -> Result<(), Fault> {
        match self.part {
            Part::Nothing => return Err(Fault::Wanted("a line without a mark")),
            Part::Words => self.run.add_word(bytes)?,
            Part::File => self.run.files.extend(bytes.as_slice())?,
            Part::Input => self.run.input.extend_from_slice(bytes.as_slice())?,
            Part::Socket => add_brought(&mut self.run.sockets, bytes.as_slice())?,
            Part::Dialled => add_brought(&mut self.run.dialled, bytes.as_slice())?,
            Part::Given => add_given(&mut self.wants.given, bytes.as_slice())?,
            Part::Mail => add_mail(&mut self.run.mails, bytes.as_slice())?,
            Part::Sent => add_sent(&mut self.wants.sent, bytes.as_slice())?,
            Part::Writes => add_wanted(&mut self.wants.writes, bytes.as_slice())?,
            Part::Among => add_wanted(&mut self.wants.among, bytes.as_slice())?,
            Part::Ends => add_wanted(&mut self.wants.ends, bytes.as_slice())?,
        }
        Ok(())
    }
}

/// These bytes are wanted behind those before.
fn add_wanted(wanted: &mut Option<Vec<u8>>, bytes: &[u8]) -> Result<(), Fault> {
    if let Some(text) = wanted {
        text.extend_from_slice(bytes)?;
    }
    Ok(())
}
