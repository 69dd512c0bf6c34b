//! Moves, nonces and frames as words say them.

use crate::book::Book;
use crate::faults::Fault;
use crate::lines::number;
use definitions::{Cell, Move, Nonce, Opening};
use hex::decode_to_slice;

/// The fields of a text, between its spaces.
pub fn fields_of<'a>(book: &Book, text: &'a str) -> Result<Vec<&'a str>, Fault> {
    let fields = text.split(' ').collect(book.alloc)?;
    Ok(fields)
}

/// The 32 bytes that the digits say.
fn long_bytes(digits: &str) -> Result<[u8; 32], Fault> {
    let mut bytes = [0; 32];
    match decode_to_slice(digits.as_bytes(), &mut bytes) {
        Ok(()) => Ok(bytes),
        Err(_) => Err(Fault::Wanted("64 hexadecimal digits")),
    }
}

/// The pass of 16 bytes that the digits say.
pub fn pass_of(digits: &str) -> Result<[u8; 16], Fault> {
    let mut bytes = [0; 16];
    match decode_to_slice(digits.as_bytes(), &mut bytes) {
        Ok(()) => Ok(bytes),
        Err(_) => Err(Fault::Wanted("32 hexadecimal digits")),
    }
}

/// The nonce of equal bytes that the word says, if it is `N` and the number of a byte.
pub fn even_nonce(word: &str) -> Option<[u8; 32]> {
    let byte = word.strip_prefix('N')?.parse::<u8>().ok()?;
    Some([byte; 32])
}

/// The nonce that the word says: of equal bytes, by a name of the book, or by its digits.
fn nonce_of(book: &Book, word: &str) -> Result<Nonce, Fault> {
    if let Some(bytes) = even_nonce(word) {
        return Ok(Nonce { bytes });
    }
    if let Ok(named) = book.find(word)
        && let Some(bytes) = named.first_chunk::<32>()
    {
        return Ok(Nonce { bytes: *bytes });
    }
    let bytes = long_bytes(word)?;
    Ok(Nonce { bytes })
}

/// The cell of two words.
fn cell_of(x: &str, y: &str) -> Result<Cell, Fault> {
    let x = number(x)?;
    let y = number(y)?;
    Ok(Cell { x, y })
}

/// The move of two words, or of four with a strike.
fn move_of(words: &[&str]) -> Result<Move, Fault> {
    match words {
        [x, y] => {
            let to = cell_of(x, y)?;
            Ok(Move { to, strike: None })
        }
        [x, y, struck_x, struck_y] => {
            let to = cell_of(x, y)?;
            let struck = cell_of(struck_x, struck_y)?;
            Ok(Move {
                to,
                strike: Some(struck),
            })
        }
        _ => Err(Fault::Wanted("a move: X Y, or X Y SX SY")),
    }
}

/// What a player opens: its player, turn, move and nonce.
fn opening_by(
    book: &Book,
    player: &str,
    turn: &str,
    mv: &[&str],
    nonce: &str,
) -> Result<Opening, Fault> {
    let player = number(player)?;
    let turn = number(turn)?;
    let mv = move_of(mv)?;
    let nonce = nonce_of(book, nonce)?;
    Ok(Opening {
        player,
        turn,
        mv,
        nonce,
    })
}

/// The opening of the words `PLAYER TURN X Y NONCE`, or `PLAYER TURN X Y SX SY NONCE`.
pub fn opening_of(book: &Book, words: &[&str]) -> Result<Opening, Fault> {
    match words {
        [player, turn, mv @ .., nonce] => opening_by(book, player, turn, mv, nonce),
        _ => Err(Fault::Wanted("PLAYER TURN X Y NONCE, with SX SY for a strike")),
    }
}
