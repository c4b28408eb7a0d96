// Vertical links, 6.2.3 and 9.2.2: document 02, ticket 3. It takes plain numbers, so it rests on the arithmetic alone.

#![tactic(auto)]

ghost use Rattle.std.specs.Prelude.{◌≡◌, ◌≤◌};
ghost use Rattle.links.specs.Links.{link_resistance, strut_resistance, strut_cotangent, truss_resistance, BestCotangent, spacing_ok, ratio_ok};
ghost use Rattle.links.specs.Code.Ranges.{TrussBounds};
ghost use Rattle.links.specs.Code.Crossing.{Crossing, FirstWith};

use std::marker::Model;

// All that these clauses ask: the section's b in mm, fck and fyk in N/mm², g and s in hundredths of N/mm², dm of the tension layers in mm,
// and the links' area in mm² and spacing in mm.
#[derive(Clone, Copy)]
pub struct Truss {
    pub b: u64,
    pub fck: u64,
    pub fyk: u64,
    pub g: u64,
    pub s: u64,
    pub dm: u64,
    pub area: u64,
    pub spacing: u64,
}

impl Model for Truss {
    ghost use Rattle.links.specs.Links.{Truss};

    ghost Value = { Truss };

    ghost use Rattle.links.specs.Code.Ranges.{TrussBounds};

    ghost view = { λ x. record { b = x.b; fck = x.fck; fyk = x.fyk; g = x.g; s = x.s; dm = x.dm; area = x.area; spacing = x.spacing } };

    ghost invariant = { λ x.
        TrussBounds record { b = x.b; fck = x.fck; fyk = x.fyk; g = x.g; s = x.s; dm = x.dm; area = x.area; spacing = x.spacing } };

    ghost inverse = { λ d. record { b = d.b; fck = d.fck; fyk = d.fyk; g = d.g; s = d.s; dm = d.dm; area = d.area; spacing = d.spacing } };
}

// The strut: the cotangent of its angle in tenths, and the resistance there in newtons, the lesser of the links' and its own.
#[derive(Clone, Copy)]
pub struct Strut {
    pub cotangent: u64,
    pub resistance: u64,
}

impl Truss {
    // (6.8), the links at a cotangent of c tenths. (A bare number, with its range in the clause, here and below: a struct for it would be opened in
    // each product.)
    fn link_resistance(&self, c: u64) -> u64
        requires { (1 ≤ c) × (c ≤ 25) }
        ensures { result ≡ link_resistance self.now c }
    {
        9 * self.area * self.dm * self.s * c / (10000 * self.spacing)
    }

    // (6.9), the strut.
    fn strut_resistance(&self, c: u64) -> u64
        requires { (1 ≤ c) × (c ≤ 25) }
        ensures { result ≡ strut_resistance self.now c }
    {
        27 * self.b * self.dm * (250 - self.fck) * self.g * c / (125000 * (c * c + 100))
    }

    // With every tenth the links resist no less, and the strut no more: so the tenths at which the links resist no more than the strut
    // come first. The last of them before anything is rounded, 9 where there is none: (6.8) is at most (6.9) where
    // steel·(c² + 100) ≤ concrete. How many they are differs from section to section, and a branch would be guessed wrong: so the loop
    // has none.
    // (9 and no Option: the loop begins there, and `Crossing` has it so. `bounds` hands on what the Model's invariant says: the two functions below
    // use no field, and see the value alone. `let _ = &self.b;` in each would tell it to them too; a clause says what is used.)
    fn crossing(&self) -> u64
        ensures crossing { Crossing self.now result }
        ensures bounds { TrussBounds self.now }
    {
        let steel = 25 * self.area * self.s;
        let concrete = 6 * self.b * (250 - self.fck) * self.g * self.spacing;
        let mut last = 9;
        for c in 10..26 {
            last = arith::either(steel * (c * c + 100) <= concrete, c, last);
        }
        last
    }

    // The first tenth at which the links resist as much as at `last`: where they resist little, several do. (`bounds` is what `crossing` hands on.)
    fn first_with(&self, last: u64, most: u64) -> u64
        requires bounds { TrussBounds self.now × ((10 ≤ last) × (last ≤ 25)) }
        requires most_is { most ≡ link_resistance self.now last }
        ensures { FirstWith self.now last result }
    {
        for c in (10..last).rev() {
            if self.link_resistance(c) < most {
                return c + 1;
            }
        }
        10
    }

    // The cotangent whose lesser resistance is greatest, the smallest on a tie, of the tenths from 1.0 to 2.5, (6.7N): the next tenth after
    // links and strut cross, if the strut resists more there than the links did before; else the first at which the links resist as much.
    pub fn best_strut(&self) -> Strut
        ensures answer { (result.cotangent ≡ strut_cotangent self.now) × (result.resistance ≡ truss_resistance self.now) }
        ensures best { BestCotangent self.now result.cotangent }
    {
        let last = self.crossing();
        if last < 10 {
            return Strut {
                cotangent: 10,
                resistance: self.strut_resistance(10),
            };
        }
        let links = self.link_resistance(last);
        if last < 25 {
            let next = self.strut_resistance(last + 1);
            if links < next {
                return Strut {
                    cotangent: last + 1,
                    resistance: next,
                };
            }
        }
        Strut {
            cotangent: self.first_with(last, links),
            resistance: links,
        }
    }

    // 9.2.2(6): the spacing is at most 0.75·dm.
    pub fn spacing_ok(&self) -> bool
        ensures { result ≡ spacing_ok self.now }
    {
        4 * self.spacing <= 3 * self.dm
    }

    // 9.2.2(5): the link ratio is at least 0.08·√fck/fyk, compared by squares.
    pub fn ratio_ok(&self) -> bool
        ensures { result ≡ ratio_ok self.now }
    {
        let steel = self.area * self.fyk;
        let concrete = self.spacing * self.b;
        4 * self.fck * (concrete * concrete) <= 625 * (steel * steel)
    }
}
