// Decimal text into a lent buffer. Each function answers the place after its text. (By hand: with the kit's `itoa` and a line of its `arrayvec` a list of
// refused records took half as long again, up to two and a half times as long, even with a number of one digit pushed by itself.)
ghost use Rattle.std.specs.Prelude.{◌+◌, ◌≤◌, [], ◌∷◌, map, length};
ghost use Rattle.listing.specs.Text.{natural, integer};
ghost use Rattle.listing.specs.Line.{spaced};
ghost use Rattle.listing.specs.Code.Buffer.{Put};

pub fn put_byte(out: &mut [u8], at: usize, byte: u8) -> usize
    requires { at + 1 ≤ length out.old }
    ensures { Put out.old at (byte ∷ []) out.new result }
{
    out[at] = byte;
    at + 1
}

// The digits of n, each computed once: those of n / 10 stand before the last one.
pub fn put_natural(out: &mut [u8], at: usize, n: u64) -> usize
    requires { at + length (natural n) ≤ length out.old }
    ensures { Put out.old at (natural n) out.new result }
{
    if n < 10 {
        put_byte(out, at, b'0' + n as u8)
    } else {
        let last = put_natural(out, at, n / 10);
        put_byte(out, last, b'0' + (n % 10) as u8)
    }
}

fn put_integer(out: &mut [u8], at: usize, x: i64) -> usize
    requires { at + length (integer x) ≤ length out.old }
    ensures { Put out.old at (integer x) out.new result }
{
    let n = x.unsigned_abs();
    if x < 0 {
        let digits = put_byte(out, at, b'-');
        put_natural(out, digits, n)
    } else {
        put_natural(out, at, n)
    }
}

// A space and a number.
fn put_word(out: &mut [u8], at: usize, n: u64) -> usize
    requires { at + length (32 ∷ natural n) ≤ length out.old }
    ensures { Put out.old at (32 ∷ natural n) out.new result }
{
    let digits = put_byte(out, at, b' ');
    put_natural(out, digits, n)
}

pub fn put_signed_word(out: &mut [u8], at: usize, x: i64) -> usize
    requires { at + length (32 ∷ integer x) ≤ length out.old }
    ensures { Put out.old at (32 ∷ integer x) out.new result }
{
    let sign = put_byte(out, at, b' ');
    put_integer(out, sign, x)
}

// Numbers, a space before each.
pub fn put_words(out: &mut [u8], at: usize, numbers: &[u64]) -> usize
    requires { at + length (spaced (map natural numbers.now) []) ≤ length out.old }
    ensures { Put out.old at (spaced (map natural numbers.now) []) out.new result }
{
    let mut next = at;
    for n in numbers {
        next = put_word(out, next, *n);
    }
    next
}
