// Concrete and steel: document 01, "Materials", and 02's tickets 8 for the design situation, 10 for the long-term factor and 11 for D. This
// is the part that is exchanged country by country: no formula above it has a partial factor or αcc.

#![tactic(auto)]

ghost use Rattle.std.specs.Prelude.{◌≤◌, Some, true, ◌≡◌, option_map};
ghost use Rattle.std.specs.Result.{result_err};
ghost use Rattle.refusals.specs.Chain.{first_failing};
ghost use Rattle.arith.specs.Fraction.{Same, whole, ◌*ᶠ◌};
ghost use Rattle.materials.specs.Table.{table, find, row_of, in_table};
ghost use Rattle.materials.specs.Situation.{long_term};
ghost use Rattle.materials.specs.Strength.{depth_factor, strength_factor, f, g, s, crd};
ghost use Rattle.materials.specs.Answer.{numbers, materials_of, grade_tests, Exact, Promised};

use refusals::Refusal;

// What a section asks of the materials: the concrete class and the steel by their strengths, in N/mm², the design situation of Table 2.1N,
// 1 persistent or 2 accidental, and αcc of 3.1.6(1), the long-term factor, in hundredths; as a record carries them.
#[repr(C)]
#[derive(Clone, Copy, Debug, PartialEq, Eq)]
pub struct Grade {
    pub fck: i64,
    pub fyk: i64,
    pub situation: i64,
    pub alphacc: i64,
}

// What the formulas use of the materials, by the letters of document 01.
#[repr(C)]
#[derive(Clone, Copy, Debug, PartialEq, Eq)]
pub struct Materials {
    // the strengths that were asked for, in N/mm²
    pub fck: u64,
    pub fyk: u64,
    // T: fctm, in tenths of N/mm²
    pub t: u64,
    // E: 200,000 N/mm² times the strain εcu3
    pub e: u64,
    // D: 200,000 N/mm² times the strain εc3
    pub d: u64,
    // L: 80 times the depth factor of the stress block
    pub l: u64,
    // f, g and s: design strengths of block, concrete and steel, in hundredths of N/mm²
    pub f: u64,
    pub g: u64,
    pub s: u64,
    // 100 times CRd,c of clause 6.2.2(1)
    pub crd: u64,
}

// What Table 3.1 prints of a class, by the letters of document 01 and of 02's ticket 11, in this sequence: T, fctm in tenths of N/mm²; E and
// D, 200,000 N/mm² times the strains εcu3 and εc3. Without names, since the formatter gives a row of named ones five lines. A further column
// of that table is a further field.
#[derive(Clone, Copy)]
pub struct Class(u64, u64, u64);

// The factors of the stress block, as the rows below have them.
#[derive(Clone, Copy)]
struct Block {
    // L: 80 times the depth factor λ
    l: u64,
    // the strength factor η, in thousandths
    eta: u64,
}

// The factors of 3.1.7(3), a row for each class (02's ticket 5); at the end of each row λ and η themselves.
static BLOCKS: [(u64, Block); 14] = [
    (12, Block { l: 64, eta: 1000 }), // λ 0.8, η 1.0
    (16, Block { l: 64, eta: 1000 }), // λ 0.8, η 1.0
    (20, Block { l: 64, eta: 1000 }), // λ 0.8, η 1.0
    (25, Block { l: 64, eta: 1000 }), // λ 0.8, η 1.0
    (30, Block { l: 64, eta: 1000 }), // λ 0.8, η 1.0
    (35, Block { l: 64, eta: 1000 }), // λ 0.8, η 1.0
    (40, Block { l: 64, eta: 1000 }), // λ 0.8, η 1.0
    (45, Block { l: 64, eta: 1000 }), // λ 0.8, η 1.0
    (50, Block { l: 64, eta: 1000 }), // λ 0.8, η 1.0
    (55, Block { l: 63, eta: 975 }), // λ 0.7875, η 0.975
    (60, Block { l: 62, eta: 950 }), // λ 0.775, η 0.95
    (70, Block { l: 60, eta: 900 }), // λ 0.75, η 0.9
    (80, Block { l: 58, eta: 850 }), // λ 0.725, η 0.85
    (90, Block { l: 56, eta: 800 }), // λ 0.7, η 0.8
];

// The partial factors of a design situation.
#[derive(Clone, Copy)]
struct PartialFactors {
    // γc, in tenths
    concrete: u64,
    // γs, in hundredths
    steel: u64,
    // they divide
    ghost concrete_low: { 1 ≤ concrete },
    ghost steel_low: { 1 ≤ steel },
    // for f, which is divided by 100 times γc: that product fits
    ghost concrete_high: { concrete ≤ 100 },
}

// Table 2.1N, persistent and transient; beside each figure the factor itself.
const PERSISTENT: PartialFactors = PartialFactors {
    concrete: 15, // γc 1.5
    steel: 115, // γs 1.15
};

// Table 2.1N, accidental.
const ACCIDENTAL: PartialFactors = PartialFactors {
    concrete: 12, // γc 1.2
    steel: 100, // γs 1.0
};

// The row of Table 3.1: T, E and D. A `match`, which is the table and the search in one; the rows above are asked only of a class that is there.
fn table_row(fck: u64) -> Option<Class>
    ensures { result ≡ find fck table }
{
    match fck {
        12 => Some(Class(16, 700, 350)),
        16 => Some(Class(19, 700, 350)),
        20 => Some(Class(22, 700, 350)),
        25 => Some(Class(26, 700, 350)),
        30 => Some(Class(29, 700, 350)),
        35 => Some(Class(32, 700, 350)),
        40 => Some(Class(35, 700, 350)),
        45 => Some(Class(38, 700, 350)),
        50 => Some(Class(41, 700, 350)),
        55 => Some(Class(42, 620, 360)),
        60 => Some(Class(44, 580, 380)),
        70 => Some(Class(46, 540, 400)),
        80 => Some(Class(48, 520, 440)),
        90 => Some(Class(50, 520, 460)),
        _ => None,
    }
}

// The same of any fck: none below zero is in the table.
fn row_of(fck: i64) -> Option<Class>
    ensures { result ≡ row_of fck }
{
    u64::try_from(fck).ok().and_then(table_row)
}

// The factors of a class, from its row.
fn block_of(fck: u64) -> Block
    requires { in_table (find fck table) ≡ true }
    ensures depth { Same (whole result.l) (whole 80 *ᶠ depth_factor fck) }
    ensures strength { Same (whole result.eta) (whole 1000 *ᶠ strength_factor fck) }
{
    BLOCKS.iter().find(|row| row.0 == fck).unwrap().1
}

impl PartialFactors {
    // here, and not at the head: it names the struct, whose ghost fields import what stands there
    ghost use Rattle.materials.specs.Code.Factors.{scaled, situation_in};

    // The row of Table 2.1N: 1 persistent, 2 accidental, and none of any other.
    fn of(situation: i64) -> Option<PartialFactors>
        ensures { option_map scaled result ≡ situation_in situation }
    {
        match situation {
            1 => Some(PERSISTENT),
            2 => Some(ACCIDENTAL),
            _ => None,
        }
    }

    // g: 100·αcc·fck/γc, with αcc in hundredths and γc in tenths. (fck and αcc go on as the formulas name them, here and in the next: a struct of the
    // two would be made for these calls alone.)
    fn concrete_strength(self, fck: u64, alphacc: u64) -> u64
        requires { (fck ≤ 90) × (alphacc ≤ 100) }
        ensures { result ≡ g (long_term alphacc) (scaled self) fck }
    {
        10 * alphacc * fck / self.concrete
    }

    // f: the strength factor, in thousandths, times the same, rounded down once. (No one function with g: this one asks that η be that of the class, and
    // g has none.)
    fn block_strength(self, fck: u64, eta: u64, alphacc: u64) -> u64
        requires in_range { (fck ≤ 90) × (alphacc ≤ 100) }
        requires eta_is { Same (whole eta) (whole 1000 *ᶠ strength_factor fck) }
        ensures { result ≡ f (long_term alphacc) (scaled self) fck }
    {
        eta * alphacc * fck / (100 * self.concrete)
    }

    // s: 100·fyk/γs.
    fn steel_strength(self, fyk: u64) -> u64
        requires { fyk ≤ 600 }
        ensures { result ≡ s (scaled self) fyk }
    {
        10000 * fyk / self.steel
    }

    // 100·CRd,c: 18/γc.
    fn shear_factor(self) -> u64
        ensures { result ≡ crd (scaled self) }
    {
        180 / self.concrete
    }

    // All of them, of a class, a steel and an αcc that passed their tests. (Five with `self`: fck, fyk and αcc are a `Grade`'s, which has them signed and
    // untested, as a record does; here they are past their tests.)
    #[inline(always)] // else what it answers is copied once more
    fn design_values(self, fck: u64, fyk: u64, alphacc: u64, class: Class) -> Materials
        requires { (find fck table ≡ Some class) × ((fyk ≤ 600) × (alphacc ≤ 100)) }
        ensures { result ≡ numbers (long_term alphacc) (scaled self) fck fyk class }
    {
        let Class(t, e, d) = class;
        let block = block_of(fck);
        Materials {
            fck,
            fyk,
            t,
            e,
            d,
            l: block.l,
            f: self.block_strength(fck, block.eta, alphacc),
            g: self.concrete_strength(fck, alphacc),
            s: self.steel_strength(fyk),
            crd: self.shear_factor(),
        }
    }
}

// The materials of a grade, or the refusal: 3 fck not in the table, 4 fyk outside 400 to 600, 32 situation other than 1 or 2, 34 αcc
// outside 80 to 100.
pub fn look_up(grade: Grade) -> Result<Materials, Refusal>
    ensures value { result ≡ materials_of grade }
    ensures refusal { result_err result ≡ first_failing (grade_tests grade) }
    ensures exact { Exact grade result }
    ensures promised { Promised grade result }
{
    let class = row_of(grade.fck).ok_or(Refusal::ConcreteClass)?;
    Refusal::SteelStrength.unless((400..=600).contains(&grade.fyk))?;
    let factors = PartialFactors::of(grade.situation).ok_or(Refusal::DesignSituation)?;
    Refusal::LongTermFactor.unless((80..=100).contains(&grade.alphacc))?;
    Ok(factors.design_values(
        grade.fck.unsigned_abs(),
        grade.fyk.unsigned_abs(),
        grade.alphacc.unsigned_abs(),
        class,
    ))
}
