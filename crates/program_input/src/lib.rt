// What every program asks of the system before it works: standard input read whole, the arguments, the file that one of them names, and a
// line that tells what failed. A read that fails is told to the caller.
#![tactic(auto)]

ghost use Rattle.std.specs.Prelude.{◌≡◌, ◌<◌, ◌≤◌, ◌⊎◌, ◌↔◌, length, take, IsNone, IfSome, IsErrAnd};
ghost use Rattle.std.specs.Str.{IsUtf8};
ghost use Rattle.std.specs.IoError.{error_kind};
ghost use Rattle.std.specs.declared.io.ErrorKind.TheVariants.{InvalidFilename};
ghost use Rattle.std.specs.Io.KnownBytes.{Consumes, IsAtEnd};

use std::env::{Env, FillError};
use std::fmt::InlineText;
use std::fs::File;
use std::io;
use std::io::{ErrorKind, Read};
use std::rt::Files;

// Reads that move a byte or are interrupted: enough for a byte at a time, and no input is waited for without end.
const TURNS: usize = 1048576;

// How many bytes were read, and the error of a read that failed.
#[derive(Clone, Copy)]
pub struct Input {
    pub length: usize,
    pub error: Option<io::Error>,
}

// Reads until the buffer is full or the input ends.
pub fn read_all<R: Read>(from: &mut R, buffer: &mut [u8]) -> Input
    ensures within { result.length ≤ length buffer.new }
    ensures bytes { Consumes (R.remaining from.old) (R.remaining from.new) (take result.length buffer.new) }
    ensures whole { IsNone result.error → (result.length ≡ length buffer.new) ⊎ IsAtEnd (R.remaining from.new) }
{
    let mut at = 0;
    for _ in 0..TURNS {
        if at >= buffer.len() {
            return Input {
                length: at,
                error: None,
            };
        }
        match from.read(&mut buffer[at..]) {
            Ok(0) => {
                return Input {
                    length: at,
                    error: None,
                };
            }
            Ok(n) => at += n,
            Err(e) if e.kind() == ErrorKind::Interrupted => {}
            Err(e) => {
                return Input {
                    length: at,
                    error: Some(e),
                };
            }
        }
    }
    Input {
        length: at,
        error: Some(io::Error::from(ErrorKind::Interrupted)),
    }
}

// How many arguments the program was started with, its own name among them. std has no words for which they are, so no clause tells the
// number.
pub fn arg_count(rt: &impl Env) -> usize {
    for i in 0..usize::MAX {
        if let Err(FillError::NotPresent) = rt.arg(i, &mut []) {
            return i;
        }
    }
    usize::MAX
}

// The file of this name, opened to be read. A name that is not text names none; std has no words for what another one names.
pub fn open_read<R: Files>(rt: &R, path: &[u8]) -> io::Result<R::File>
    ensures text { ¬ (IsUtf8 path.now) → IsErrAnd result (λ e. error_kind e ≡ InvalidFilename) }
{
    match str::from_utf8(path) {
        Ok(name) => File::open(rt, name),
        Err(_) => Err(io::Error::new(ErrorKind::InvalidFilename, "not text")),
    }
}

// How many bytes of the file of this name were read into the buffer. A file that cannot be opened is told on standard error; of one whose
// reading fails what came before counts.
pub fn read_file<R: Files + Eprint>(rt: &R, path: &[u8], buffer: &mut [u8]) -> Option<usize>
    ensures text { ¬ (IsUtf8 path.now) → IsNone result }
    ensures within { IfSome result (λ n. n ≤ length buffer.new) }
{
    match open_read(rt, path) {
        Ok(mut file) => Some(read_all(&mut file, buffer).length),
        Err(e) => {
            fail(rt, path, e);
            None
        }
    }
}

// What the system says of an error, without the number that std writes behind it.
fn words(text: &str) -> &str {
    match text.rsplit_once(" (os error ") {
        Some((front, _)) => front,
        None => text,
    }
}

// Writes a line to standard error: what failed, as the caller names it, a colon and the error's text. A line that cannot be written is lost.
// std has no words for what standard error was given, so no clause tells the line.
pub fn fail(rt: &impl Eprint, what: &[u8], error: io::Error) {
    let text = InlineText::<256>::of(error);
    let said = words(text.as_str());
    let _ = match str::from_utf8(what) {
        Ok(name) => eprintln!(rt; "{name}: {said}"),
        Err(_) => eprintln!(rt; "{}: {said}", what.escape_ascii()),
    };
}
