// Read a record: document 01, "When a call is turned down", and 02's ticket 6.
ghost use Rattle.std.specs.Prelude.{true, ◌≡◌, ◌+◌, ◌<◌, ◌≤◌, [], length, pos, IfOk};
ghost use Rattle.std.specs.Result.{result_err};
ghost use Rattle.refusals.specs.Number.{number_or_0};
ghost use Rattle.refusals.specs.Chain.{first_failing};
ghost use Rattle.section.specs.Section.{no_links};
ghost use Rattle.record.specs.Fields.{field_of, is_number};
ghost use Rattle.record.specs.Map.{record_length};
ghost use Rattle.record.specs.Contents.{number_of, links_in, layer_at, layers_in, filled, section_with, section_of, load_of};
ghost use Rattle.record.specs.Refusals.{map_in, map_tests, held_tests, read_tests};
ghost use Rattle.record.specs.Read.{read_of, RestIgnored};
ghost use Rattle.record.specs.Code.Answer.{reading_as};

use super::Reading;
use super::bytes::{i64_at, u32_at};
use super::fields::{LINKS, field_of, missing_value};
use super::map::{bit_stands, field_offset, is_complete, only_fields, record_length};
use materials::Grade;
use refusals::Refusal;
use section::acceptance::{accept, counted_links, no_links, test_load_and_links};
use section::{Layer, Links, Load, Section};
use sequence::in_sequence;

// The layer whose eight bytes begin at `at`.
fn layer(s: &[u8], at: usize) -> Layer
    requires { at + 8 ≤ length s.now }
    ensures { result ≡ layer_at s.now at }
{
    Layer {
        depth: u32_at(s, at),
        area: u32_at(s, at + 4),
    }
}

// A record that was read.
#[derive(Clone, Copy)]
struct Record {
    length: usize,
    section: Section,
    load: Load,
}

// Why none was read, and the length that is answered. (0 where none is named, as `Reading` has it: an Option would be turned into that 0 at once.)
#[derive(Clone, Copy)]
struct Refused {
    refusal: Refusal,
    length: usize,
}

// Bytes that hold a record: as many as its map calls for.
#[derive(Clone, Copy)]
struct Mapped<'a> {
    bytes: &'a [u8],
    map: u32,
    ghost whole: { record_length map ≤ length bytes.now },
}

impl<'a> Mapped<'a> {
    // The record that the bytes begin with, where its map passes the tests 20, 21 and 22.
    fn new(bytes: &'a [u8]) -> Result<Mapped<'a>, Refusal>
        ensures refusal { result_err result ≡ first_failing (map_tests bytes.now) }
        ensures ok { IfOk result (λ r. (r.bytes.now ≡ bytes.now) × (r.map ≡ map_in bytes.now)) }
    {
        Refusal::MapCut.unless(4 <= bytes.len())?;
        let map = u32_at(bytes, 0);
        Refusal::UnknownField.unless(only_fields(map))?;
        Refusal::RecordCut.unless(record_length(map) <= bytes.len())?;
        Ok(Mapped { bytes, map })
    }

    // The number of bit k, or what it is where the bit does not stand. (Bits by their numbers, as the table of the record has them.)
    fn number(&self, k: u32) -> i64
        requires { is_number (field_of k) ≡ true }
        ensures { result ≡ number_of self.now.bytes.now self.now.map k }
    {
        if bit_stands(self.map, k) {
            i64_at(self.bytes, field_offset(self.map, k))
        } else {
            missing_value(field_of(k))
        }
    }

    // The links, present where their bit stands: their area comes before their spacing.
    fn links(&self) -> Links
        ensures { result ≡ links_in self.now.bytes.now self.now.map }
    {
        if bit_stands(self.map, LINKS) {
            let at = field_offset(self.map, LINKS);
            Links {
                present: 1,
                area: u32_at(self.bytes, at),
                spacing: u32_at(self.bytes, at + 4),
            }
        } else {
            no_links()
        }
    }

    // The layers by rising bit, the place j has bit 8 + j, with zeros beyond them; and how many they are. No ArrayVec: its places would be
    // copied into the section's own, which is no plainer.
    fn layers(&self) -> ([Layer; 16], usize)
        ensures places { result.0 ≡ filled (layers_in self.now.bytes.now self.now.map) }
        ensures count { result.1 ≡ length (layers_in self.now.bytes.now self.now.map) }
    {
        let mut places = [Layer { depth: 0, area: 0 }; 16];
        let mut count = 0;
        for j in 0..16 {
            let k = 8 + j;
            if bit_stands(self.map, k) {
                places[count] = layer(self.bytes, field_offset(self.map, k));
                count += 1;
            }
        }
        (places, count)
    }

    fn section(&self) -> Section
        ensures { result ≡ section_of self.now.bytes.now self.now.map }
    {
        let (layers, count) = self.layers();
        Section {
            layers,
            width: self.number(0),
            height: self.number(1),
            grade: Grade {
                fck: self.number(2),
                fyk: self.number(3),
                situation: self.number(24),
                alphacc: self.number(25),
            },
            links: self.links(),
            count,
        }
    }

    fn load(&self) -> Load
        ensures { result ≡ load_of self.now.bytes.now self.now.map }
    {
        Load {
            n: self.number(4),
            m: self.number(5),
            v: self.number(6),
        }
    }

    // All that the bits hold, and the length that follows from them.
    fn record(&self) -> Record
        ensures length { result.length ≡ record_length self.now.map }
        ensures section { result.section ≡ section_of self.now.bytes.now self.now.map }
        ensures load { result.load ≡ load_of self.now.bytes.now self.now.map }
    {
        Record {
            length: record_length(self.map),
            section: self.section(),
            load: self.load(),
        }
    }

    // The same, where it passes the test 23, which asks the map alone, so that nothing more is read of what it refuses; then the section tests, 31,
    // which is asked here only, the load tests and those of the links.
    fn held(&self) -> Result<Record, Refusal>
        ensures refusal { result_err result ≡ first_failing (held_tests self.now.map
            (section_of self.now.bytes.now self.now.map) (load_of self.now.bytes.now self.now.map)) }
        ensures length { IfOk result (λ r. r.length ≡ record_length self.now.map) }
        ensures section { IfOk result (λ r. r.section ≡ section_of self.now.bytes.now self.now.map) }
        ensures load { IfOk result (λ r. r.load ≡ load_of self.now.bytes.now self.now.map) }
    {
        Refusal::FieldMissing.unless(is_complete(self.map))?;
        let record = self.record();
        accept(&record.section)?;
        Refusal::LayerSequence.unless(in_sequence(record.section))?;
        test_load_and_links(&counted_links(record.section.links), &record.load)?;
        Ok(record)
    }
}

// What is answered of a refusal for its section. (Zeros written out: a `Default` of these structs would offer a section that no call accepts.)
#[tactic(auto, unfolding(crate::specs::Contents::filled))]
fn no_section() -> Section
    ensures { result ≡ section_with (λ bit. pos 0) no_links [] }
{
    Section {
        layers: [Layer { depth: 0, area: 0 }; 16],
        width: 0,
        height: 0,
        grade: Grade {
            fck: 0,
            fyk: 0,
            situation: 0,
            alphacc: 0,
        },
        links: no_links(),
        count: 0,
    }
}

impl From<Result<Record, Refused>> for Reading {
    ghost from_gives = { λ answer r. r ≡ reading_as answer };

    fn from(answer: Result<Record, Refused>) -> Reading {
        match answer {
            Ok(record) => Reading {
                refusal: 0,
                length: record.length,
                section: record.section,
                load: record.load,
            },
            Err(refused) => Reading {
                refusal: refused.refusal.number(),
                length: refused.length,
                section: no_section(),
                load: Load::default(),
            },
        }
    }
}

// A refusal by the tests of the map, 20 to 22, answers no length, and one by those after them does.
fn record_in(bytes: &[u8]) -> Result<Record, Refused>
    ensures { reading_as result ≡ read_of bytes.now }
{
    let mapped = Mapped::new(bytes).map_err(|refusal| Refused { refusal, length: 0 })?;
    let length = record_length(mapped.map);
    mapped.held().map_err(|refusal| Refused { refusal, length })
}

// The record that the bytes begin with, or why there is none: 20, 21, 22, 23, then the section tests, 31, the load tests and those of the
// links.
pub fn read(bytes: &[u8]) -> Reading
    ensures value { result ≡ read_of bytes.now }
    ensures refusal { result.refusal ≡ number_or_0 (first_failing (read_tests bytes.now)) }
    ensures rest_ignored { RestIgnored bytes.now result }
{
    Reading::from(record_in(bytes))
}
