// Big-endian numbers in a slice of bytes: of four bytes without a sign, of eight bytes in two's complement. (Two functions, as std has no trait for
// `from_be_bytes`; and with a place beside the slice, here and in the reader: where a field lies follows from the map.)
ghost use Rattle.std.specs.Prelude.{◌≡◌, ◌+◌, ◌≤◌, length, take, drop};
ghost use Rattle.record.specs.Bytes.{number_at, placed, signed};

// The N bytes from `at` on.
fn bytes_at<const N: usize>(s: &[u8], at: usize) -> [u8; N]
    requires { at + N ≤ length s.now }
    ensures { result ≡ take N (drop at s.now) }
{
    *s[at..].first_chunk().unwrap()
}

// The number that the four bytes from `at` on make.
pub fn u32_at(s: &[u8], at: usize) -> u32
    requires { at + 4 ≤ length s.now }
    ensures { result ≡ number_at s.now at 4 }
{
    u32::from_be_bytes(bytes_at(s, at))
}

// The number whose two's complement the eight bytes from `at` on make.
pub fn i64_at(s: &[u8], at: usize) -> i64
    requires { at + 8 ≤ length s.now }
    ensures { result ≡ signed (number_at s.now at 8) }
{
    i64::from_be_bytes(bytes_at(s, at))
}

// Copies bytes into a lent buffer, from `at` on.
pub fn put(buffer: &mut [u8], at: usize, bytes: &[u8])
    requires { at + length bytes.now ≤ length buffer.old }
    ensures { buffer.new ≡ placed buffer.old at bytes.now }
{
    buffer[at..at + bytes.len()].copy_from_slice(bytes);
}
