// A face of an accepted section under N: what a caller makes, with one fact. (`Balance` is made of it, and keeps what a search needs besides: the
// slice of layers and the area of the steel.)
ghost use Rattle.arith.specs.Integer.{Within};

use section::Accepted;

// The layers' depths are measured from the face that is compressed.
#[derive(Clone, Copy)]
pub struct Loaded<'a> {
    pub face: &'a Accepted,
    pub n: i64,
    pub ghost load: { Within n 500000000 },
}
