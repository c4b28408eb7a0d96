// A line of the list: the number, refusal or 0, u, MRd, VRd,c, dm, As, the verdicts, single spaces, a newline.
ghost use Rattle.std.specs.Prelude.{◌+◌, ◌≤◌, length};
ghost use Rattle.listing.specs.Line.{line};
ghost use Rattle.listing.specs.Code.Buffer.{Put};

use super::text::{put_byte, put_natural, put_signed_word, put_words};
use clauses::Listed;

pub fn put_line(out: &mut [u8], at: usize, number: u64, a: &Listed) -> usize
    requires { at + length (line number a.now) ≤ length out.old }
    ensures { Put out.old at (line number a.now) out.new result }
{
    let words = put_natural(out, at, number);
    let signed = put_words(out, words, &[a.refusal, a.u]);
    let others = put_signed_word(out, signed, a.mrd);
    let judged = put_words(out, others, &[a.vrd, a.dm, a.area]);
    let end = put_words(out, judged, &a.verdicts);
    put_byte(out, end, b'\n')
}
