// The table of fields, bit by bit, as specs/Fields.antt has it. Reader and writer ask it what stands at a bit. A bit is a u32, as shifts and
// std's counts have it, and a place a usize: hence the cast, which loses nothing.
ghost use Rattle.std.specs.Prelude.{◌≡◌, ◌<◌};
ghost use Rattle.record.specs.Fields.{field_of, must_stand, missing};

// The fields that are signed numbers: document 01's b, h, fck, fyk, N, M and V, the design situation of 02's ticket 8 and the long-term
// factor αcc of ticket 10.
#[derive(Clone, Copy)]
pub enum Number {
    Width,
    Height,
    Fck,
    Fyk,
    Axial,
    Moment,
    Shear,
    Situation,
    LongTerm,
}

#[derive(Clone, Copy)]
pub enum Field {
    // A number that must stand.
    Must(Number),
    // A number that may be missing, and what it is then: the writer omits it when it is that.
    May(Number, i64),
    // The links: a 4-byte area and a 4-byte spacing.
    LinkPair,
    // The layer at a place, from 0: a 4-byte depth and a 4-byte area.
    LayerAt(usize),
    // No field.
    Unused,
}

// How many bits the table names: none from here on has a field.
pub const WIDTH: u32 = 26;

// The bit of the links.
pub const LINKS: u32 = 7;

// What stands at one of the bits below the layers.
fn low_field(k: u32) -> Field
    requires { k < 8 }
    ensures { result ≡ field_of k }
{
    match k {
        0 => Field::Must(Number::Width),
        1 => Field::Must(Number::Height),
        2 => Field::Must(Number::Fck),
        3 => Field::Must(Number::Fyk),
        4 => Field::May(Number::Axial, 0),
        5 => Field::May(Number::Moment, 0),
        6 => Field::May(Number::Shear, 0),
        // Bit 7: the `requires` leaves no other.
        _ => Field::LinkPair,
    }
}

// What stands at bit k.
pub fn field_of(k: u32) -> Field
    ensures { result ≡ field_of k }
{
    if k < 8 {
        return low_field(k);
    }
    if k < 24 {
        return Field::LayerAt((k - 8) as usize);
    }
    match k {
        24 => Field::May(Number::Situation, 1),
        25 => Field::May(Number::LongTerm, 100),
        _ => Field::Unused,
    }
}

// Must a record have it?
pub fn must_stand(f: Field) -> bool
    ensures { result ≡ must_stand f }
{
    matches!(f, Field::Must(_))
}

// What a number is where its bit does not stand. (0 too of one that must stand: the numbers are read before test 23, which then refuses the record.)
pub fn missing_value(f: Field) -> i64
    ensures { result ≡ missing f }
{
    match f {
        Field::May(_, d) => d,
        _ => 0,
    }
}
