// A section of reinforced concrete and its load, and the tests that they pass before anything is computed: document 01, "What the
// engine covers" and "When a call is turned down"; the links by 02's ticket 3, a layer altered by its ticket 9.

#![tactic(auto)]

pub mod acceptance;
mod altered;
mod layers;

ghost use Rattle.std.specs.Prelude.{take};
ghost use Rattle.section.specs.Code.Usable.{Usable};

pub use layers::steel_area;
use materials::{Grade, Materials};

// A layer of steel: its depth from the top face in mm, and its area in mm².
#[repr(C)]
#[derive(Clone, Copy)]
pub struct Layer {
    pub depth: u32,
    pub area: u32,
}

// Vertical links: the area of all their legs in mm², and their spacing along the member in mm. They are present or absent as a whole: 0 is
// absent, any other number present. C is given no truth value. The numbers of absent links are never read.
#[repr(C)]
#[derive(Clone, Copy, Default)]
pub struct Links {
    pub present: u64,
    pub area: u32,
    pub spacing: u32,
}

// What a record can carry. Of `layers` only the first `count` places are read. They stand first in memory, where a copy of the
// section by value is read back without a wait.
#[repr(C)]
#[derive(Clone, Copy)]
pub struct Section {
    pub layers: [Layer; 16],
    pub width: i64,
    pub height: i64,
    pub grade: Grade,
    pub links: Links,
    pub count: usize,
}

// N and V in newtons, N positive in compression; M in N·mm about mid-height, positive where it compresses the top. (A load stands beside its section in
// the calls, as C gives the two: a struct of both would be made there and opened at the first test.)
#[repr(C)]
#[derive(Clone, Copy, Default)]
pub struct Load {
    pub n: i64,
    pub m: i64,
    pub v: i64,
}

// What the formulas use of an accepted section besides its layers: b, h and the materials.
#[repr(C)]
#[derive(Clone, Copy)]
pub struct Design {
    pub b: u64,
    pub h: u64,
    pub m: Materials,
}

// A section that passed its tests: what every call computes with. Of the sixteen places the first `count` hold its layers: as in the struct for C,
// so that they are copied as they lie.
#[derive(Clone, Copy)]
pub struct Accepted {
    pub design: Design,
    pub layers: [Layer; 16],
    pub count: usize,
    pub ghost usable: { Usable design count (take count layers) },
}
