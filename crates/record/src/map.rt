// The map of a record: its bits, and what follows from how many of them stand. std counts bits in u32, and a length is a usize: hence the
// casts, which lose nothing.
ghost use Rattle.std.specs.Prelude.{◌≡◌, ◌<◌};
ghost use Rattle.record.specs.Map.{stands, offset, record_length, only_fields, complete};

use super::fields::{WIDTH, field_of, must_stand};

// The length of a record with this map: 4 bytes, and 8 for each bit that stands.
pub fn record_length(map: u32) -> usize
    ensures { result ≡ record_length map }
{
    4 + 8 * (map.count_ones() as usize)
}

// Where the bytes of bit k begin: past the map and the fields of the lower bits.
pub fn field_offset(map: u32, k: u32) -> usize
    requires { k < 32 }
    ensures { result ≡ offset map k }
{
    4 + 8 * ((map % (1u32 << k)).count_ones() as usize)
}

pub fn bit_stands(map: u32, k: u32) -> bool
    requires { k < 32 }
    ensures { result ≡ stands map k }
{
    (map >> k) % 2 == 1
}

// Has every bit that stands a field? The table's own bits all have one, and no bit from its width on: test 21.
pub fn only_fields(map: u32) -> bool
    ensures { result ≡ only_fields map }
{
    map >> WIDTH == 0
}

// Do the fields stand that must? Test 23.
pub fn is_complete(map: u32) -> bool
    ensures { result ≡ complete map }
{
    let mut complete = true;
    for k in 0..WIDTH {
        complete &= !must_stand(field_of(k)) || bit_stands(map, k);
    }
    complete
}
