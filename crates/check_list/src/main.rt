// The check list program: document 01, "The list". Records back to back on standard input, a line for each on standard
// output. What could not be read or written is said on standard error.

#![tactic(auto)]

ghost use Rattle.std.specs.Prelude.{List, ◌≡◌, ◌≢◌, ◌↔◌, ℕ, ◌≤◌, length, take, IsErrOf, IfOk, IfSome, OnOk};
ghost use Rattle.std.specs.IoError.{error_kind};
ghost use Rattle.std.specs.Io.KnownBytes.{Appends, Keeps};
ghost use Rattle.listing.specs.Code.Buffer.{Put};
ghost use Rattle.listing.specs.Program.{first_line, printed_of};
ghost use Rattle.check_list.specs.Input.{Had, IsPrefixLen};

use std::io;
use std::io::{ErrorKind, Read, Write};
use std::process::ExitCode;

// The status of a program that ended as whoever read its output stopped: 128 and SIGPIPE.
const NO_READER: u8 = 141;

// Why the list is not there or not whole: a read failed, or a write did, or whoever reads it stopped. (Without a Display: each message is printed at
// one place, in `main`.)
#[derive(Clone, Copy)]
enum Failure {
    NotRead,
    NotWritten,
    NoReader,
}

// All the bytes that the reader has, at the start of the buffer; or `None`, where it has more than the buffer holds. Reads until the
// buffer is full and a byte beyond it was asked for, the input ends, or a read fails: then no bytes are in hand. By hand, as std's read_exact tells
// little after an Err, and read_to_end asks for a Vec.
fn read_input<'a, R: Read>(reader: &mut R, buffer: &'a mut [u8]) -> io::Result<Option<&'a [u8]>>
    ensures few { IfOk result (λ taken. IfSome taken (λ hand. length hand.now ≤ length buffer.old)) }
    ensures bytes { IfSome (R.remaining reader.old) (λ xs. IfOk result (λ taken. Had taken (length buffer.old) xs)) }
{
    let mut n = 0usize;
    while n < buffer.len() {
        let more = reader.read(&mut buffer[n..])?;
        if more == 0 {
            return Ok(Some(&buffer[..n]));
        }
        n += more;
    }
    let beyond = reader.read(&mut [0u8; 1])?;
    if beyond > 0 {
        return Ok(None);
    }
    Ok(Some(buffer))
}

// Room for the first line and the list of 65,536 bytes: 42, and 12 for each and 48. The `ensures` gives only the length.
fn text_buffer() -> [u8; 786522]
    ensures { 786522 ≡ length result }
{
    [0; 786522]
}

fn put_first_line(text: &mut [u8]) -> usize
    requires { 42 ≤ length text.old }
    ensures { Put text.old 0 first_line text.new result }
{
    text[..42].copy_from_slice(b"rec ref u mrd vrd dm as v1 v2 v3 v4 v5 v6\n");
    42
}

// The whole text, for the bytes of an input: the first line, then the list; or the line of refusal 26, where there are more than 65,536.
fn put_text(input: Option<&[u8]>, text: &mut [u8]) -> usize
    requires few { IfSome input (λ hand. length hand.now ≤ 65536) }
    requires room { 786522 ≤ length text.old }
    ensures within { IsPrefixLen result text.new }
    ensures text { (xs : List ℕ) → Had input.entry 65536 xs → Put text.old 0 (printed_of xs) text.new result }
{
    let at = put_first_line(text);
    match input {
        Some(hand) => at + listing::list(hand, &mut text[at..]).length,
        None => at + listing::list_too_long(&mut text[at..]).length,
    }
}

// Writes all of the bytes, or stops at the first write that takes nothing or fails. By hand, as std's write_all tells little after an Err, and tries a
// write again that was interrupted.
fn write_whole<W: Write>(writer: &mut W, bytes: &[u8]) -> io::Result<()>
    ensures whole { OnOk result (Appends (W.contents writer.old) (W.contents writer.new) bytes.now) }
    ensures part { (k : ℕ) × Appends (W.contents writer.old) (W.contents writer.new) (take k bytes.now) }
{
    let mut left = bytes;
    while !left.is_empty() {
        let more = writer.write(left)?;
        if more == 0 {
            return Err(io::Error::from(ErrorKind::WriteZero));
        }
        left = left.split_at(more).1;
    }
    Ok(())
}

// Why a write failed: whoever reads what is written stopped, or something else.
impl From<io::Error> for Failure {
    ghost use Rattle.std.specs.declared.io.ErrorKind.TheVariants.{BrokenPipe};
    ghost use Rattle.check_list.specs.declared.Failure.TheVariants.{NoReader, NotRead};

    ghost from_gives = { λ e why. (why ≡ NoReader ↔ error_kind e ≡ BrokenPipe) × (why ≢ NotRead) };

    fn from(e: io::Error) -> Failure {
        if e.kind() == ErrorKind::BrokenPipe {
            Failure::NoReader
        } else {
            Failure::NotWritten
        }
    }
}

// The program, between a reader and a writer: the text for all that the reader has, and nothing where a read fails.
fn print_list<R: Read, W: Write>(reader: &mut R, writer: &mut W) -> Result<(), Failure>
    ensures whole { OnOk result (IfSome (R.remaining reader.old)
        (λ xs. Appends (W.contents writer.old) (W.contents writer.new) (printed_of xs))) }
    ensures part { IfSome (R.remaining reader.old)
        (λ xs. (k : ℕ) × Appends (W.contents writer.old) (W.contents writer.new) (take k (printed_of xs))) }
    ensures none { IsErrOf result Failure.NotRead → Keeps (W.contents writer.old) (W.contents writer.new) }
{
    // fixed buffers, as nothing is allocated (a rule of the project)
    let mut input = [0u8; 65536];
    let taken = read_input(reader, &mut input).map_err(|_| Failure::NotRead)?;
    let mut text = text_buffer();
    let m = put_text(taken, &mut text);
    write_whole(writer, &text[..m])?;
    Ok(())
}

fn main(rt: HostRuntime) -> ExitCode {
    match print_list(&mut rt.stdin(), &mut rt.stdout()) {
        Ok(()) => ExitCode::SUCCESS,
        Err(Failure::NotRead) => {
            let _ = eprintln!(rt; "check_list: standard input could not be read");
            ExitCode::FAILURE
        }
        Err(Failure::NotWritten) => {
            let _ = eprintln!(rt; "check_list: the list could not be written whole");
            ExitCode::FAILURE
        }
        Err(Failure::NoReader) => ExitCode::from(NO_READER),
    }
}
