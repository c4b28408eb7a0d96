// Write a record: document 01, "When a call is turned down", and 02's ticket 6.
ghost use Rattle.std.specs.Prelude.{true, ◌≡◌, ◌<◌, ◌≤◌, ◌++◌, length};
ghost use Rattle.refusals.specs.Number.{number_or_0};
ghost use Rattle.refusals.specs.Chain.{first_failing};
ghost use Rattle.section.specs.Section.{counted, links_of};
ghost use Rattle.record.specs.Bytes.{bytes_of, placed};
ghost use Rattle.record.specs.Map.{record_length};
ghost use Rattle.record.specs.Refusals.{write_tests};
ghost use Rattle.record.specs.Write.{written_as, written_of, buffer_of};
ghost use Rattle.record.specs.RoundTrip.{ReadsBack};

use super::Written;
use super::bytes::put;
use super::fields::{Field, Number, WIDTH, field_of};
use super::map::{bit_stands, record_length};
use refusals::Refusal;
use section::acceptance::test_record;
use section::{Load, Section};
use sequence::sequenced;

// The bytes of two numbers, one after the other.
fn pair_bytes(x: u32, y: u32) -> [u8; 8]
    ensures { result ≡ bytes_of 4 x ++ bytes_of 4 y }
{
    let [a, b, c, d] = x.to_be_bytes();
    let [e, f, g, h] = y.to_be_bytes();
    [a, b, c, d, e, f, g, h]
}

// What is written: a section that passed its tests, with its load.
#[derive(Clone, Copy)]
struct Content<'a> {
    section: &'a Section,
    load: &'a Load,
    ghost few: { section.now.count ≤ 16 },
}

impl Content<'_> {
    ghost use Rattle.record.specs.Code.Content.{value_in, writes_in, bytes_in, map_written, fields_in};

    // The number of that name.
    fn number(&self, x: Number) -> i64
        ensures { result ≡ value_in self.now x }
    {
        match x {
            Number::Width => self.section.width,
            Number::Height => self.section.height,
            Number::Fck => self.section.grade.fck,
            Number::Fyk => self.section.grade.fyk,
            Number::Axial => self.load.n,
            Number::Moment => self.load.m,
            Number::Shear => self.load.v,
            Number::Situation => self.section.grade.situation,
            Number::LongTerm => self.section.grade.alphacc,
        }
    }

    // Is a field written? A number not where it is what a missing one is; the links where they are present; a layer where it is counted.
    fn writes(&self, f: Field) -> bool
        ensures { result ≡ writes_in self.now f }
    {
        match f {
            Field::Must(_) => true,
            Field::May(x, d) => self.number(x) != d,
            Field::LinkPair => self.section.links.present != 0,
            Field::LayerAt(i) => i < self.section.count,
            Field::Unused => false,
        }
    }

    // The eight bytes of a field that is written: the links' area stands before their spacing, a layer's depth before its area.
    fn bytes(&self, f: Field) -> [u8; 8]
        requires { writes_in self.now f ≡ true }
        ensures { result ≡ bytes_in self.now f }
    {
        match f {
            Field::Must(x) | Field::May(x, _) => self.number(x).to_be_bytes(),
            Field::LinkPair => pair_bytes(self.section.links.area, self.section.links.spacing),
            Field::LayerAt(i) => {
                let y = self.section.layers[i];
                pair_bytes(y.depth, y.area)
            }
            Field::Unused => [0; 8],
        }
    }

    // The map: the bits of the fields that are written.
    fn map(&self) -> u32
        ensures { result ≡ map_written self.now }
    {
        let mut map = 0;
        for k in 0..WIDTH {
            if self.writes(field_of(k)) {
                map += 1u32 << k;
            }
        }
        map
    }

    // The fields, lowest bit first, after the four bytes of the map. (The place goes on only at a bit that stands.)
    fn put_fields(&self, map: u32, buffer: &mut [u8])
        requires map_is { map ≡ map_written self.now }
        requires room { record_length map ≤ length buffer.old }
        ensures { buffer.new ≡ placed buffer.old 4 (fields_in self.now) }
    {
        let mut at = 4;
        for k in 0..WIDTH {
            if bit_stands(map, k) {
                put(buffer, at, &self.bytes(field_of(k)));
                at += 8;
            }
        }
    }
}

// The record at the start of the buffer, its layers in sequence, and its length; or the refusal, the section tests, the load tests, those of the links,
// then 25.
fn put_record(s: &Section, l: &Load, buffer: &mut [u8]) -> Result<usize, Refusal>
    ensures value { written_as result ≡ written_of (counted s.now) (links_of s.now) l.now buffer.old }
    ensures lent { buffer.new ≡ buffer_of (counted s.now) (links_of s.now) l.now buffer.old }
{
    test_record(s, l)?;
    let section = sequenced(*s);
    let content = Content {
        section: &section,
        load: l,
    };
    let map = content.map();
    let length = record_length(map);
    Refusal::BufferTooShort.unless(length <= buffer.len())?;
    put(buffer, 0, &map.to_be_bytes());
    content.put_fields(map, buffer);
    Ok(length)
}

// The record at the start of the buffer, whatever the sequence of the layers in hand; or the refusal, and no byte changed.
pub fn write(s: Section, l: Load, buffer: &mut [u8]) -> Written
    ensures value { result ≡ written_of (counted s) (links_of s) l buffer.old }
    ensures lent { buffer.new ≡ buffer_of (counted s) (links_of s) l buffer.old }
    ensures refusal { result.refusal ≡ number_or_0 (first_failing (write_tests (counted s) (links_of s) l buffer.old)) }
    ensures round_trip { ReadsBack s l result buffer.new }
{
    Written::from(put_record(&s, &l, buffer))
}
