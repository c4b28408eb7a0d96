// The check list: document 01, "The list". From the bytes of an input the lines of its records, into a lent buffer.

#![tactic(auto)]

mod entries;
mod line;
mod records;
mod text;

ghost use Rattle.std.specs.Prelude.{◌≡◌, ◌≤◌, leb, length};
ghost use Rattle.record.specs.Write.{written_as};
ghost use Rattle.listing.specs.Records.{list_of};
ghost use Rattle.listing.specs.Code.Buffer.{Put, room_for};
ghost use Rattle.listing.specs.Answers.{text_written, text_buffer, list_written, list_buffer};
ghost use Rattle.listing.specs.Program.{too_long};

use clauses::numbers::refused_listed;
use entries::entry_of;
use line::put_line;
use record::Written;
use records::Records;
use refusals::Refusal;

// The lines of the records in `input`, at the start of `out`; answers how many bytes they are.
fn put_lines(input: &[u8], out: &mut [u8]) -> usize
    requires { length (list_of input.now) ≤ length out.old }
    ensures { Put out.old 0 (list_of input.now) out.new result }
{
    let records = Records { rest: input };
    let mut at = 0usize;
    for (before, reading) in records.enumerate() {
        // `as`, proved not to lose: u64 has no From of usize
        at = put_line(out, at, before as u64 + 1, &entry_of(&reading));
    }
    at
}

// Is a buffer so long that the list of n bytes fits it, whatever they are?
fn long_enough(n: usize, room: usize) -> bool
    ensures { result ≡ leb (room_for n) room }
{
    room.checked_sub(48).is_some_and(|left| n <= left / 12)
}

// The list of `input`, at the start of `out`: its length; or 25 where `out` is shorter than 12 bytes for each byte of input and 48.
fn put_list(input: &[u8], out: &mut [u8]) -> Result<usize, Refusal>
    ensures value { written_as result ≡ list_written input.now out.old }
    ensures lent { out.new ≡ list_buffer input.now out.old }
{
    Refusal::BufferTooShort.unless(long_enough(input.len(), out.len()))?;
    Ok(put_lines(input, out))
}

// The one line for an input that is too long, refusal 26 with the number 0, at the start of `out`; or 25 as for an empty list.
fn put_too_long(out: &mut [u8]) -> Result<usize, Refusal>
    ensures value { written_as result ≡ text_written (room_for 0) too_long out.old }
    ensures lent { out.new ≡ text_buffer (room_for 0) too_long out.old }
{
    Refusal::BufferTooShort.unless(long_enough(0, out.len()))?;
    let listed = refused_listed(Refusal::InputTooLong.number());
    Ok(put_line(out, 0, 0, &listed))
}

// The list of `input`, as C is answered.
pub fn list(input: &[u8], out: &mut [u8]) -> Written
    ensures value { result ≡ list_written input.now out.old }
    ensures lent { out.new ≡ list_buffer input.now out.old }
{
    Written::from(put_list(input, out))
}

// The one line for an input that is too long, in the same way.
pub fn list_too_long(out: &mut [u8]) -> Written
    ensures value { result ≡ text_written (room_for 0) too_long out.old }
    ensures lent { out.new ≡ text_buffer (room_for 0) too_long out.old }
{
    Written::from(put_too_long(out))
}
