// A section that passed its tests: what every call computes with. It is made once, where a call begins, and lent to all below.
ghost use Rattle.std.specs.Prelude.{◌≡◌, ◌≤◌, length};
ghost use Rattle.section.specs.Turned.{turned_layer, turned};
ghost use Rattle.section.specs.Code.Accepted.{layers_in, area_sum};

use super::{Accepted, Layer};

impl Layer {
    // The layer from the other face of a section with the height h; the depth 0 where it is no depth of the section.
    pub fn turned(self, h: u32) -> Layer
        ensures { result ≡ turned_layer h self }
    {
        Layer {
            depth: h.saturating_sub(self.depth),
            area: self.area,
        }
    }
}

// The area of at most sixteen layers, in mm².
pub fn steel_area(layers: &[Layer]) -> u64
    requires { length layers.now ≤ 16 }
    ensures { result ≡ area_sum layers.now }
{
    let mut sum: u64 = 0;
    for l in layers {
        sum += u64::from(l.area);
    }
    sum
}

impl Accepted {
    // Its layers, as the face sees them from which their depths are measured.
    pub fn layers(&self) -> &[Layer]
        ensures value { result.now ≡ layers_in self.now }
        ensures all { length result.now ≡ self.now.count }
    {
        &self.layers[..self.count]
    }

    // The area of all layers, in mm².
    pub fn steel_area(&self) -> u64
        ensures { result ≡ area_sum (layers_in self.now) }
    {
        steel_area(self.layers())
    }

    // The section turned over: the depths from the other face.
    pub fn turned_over(&self) -> Accepted
        ensures design { result.design ≡ self.now.design }
        ensures layers { layers_in result ≡ turned self.now.design.h (layers_in self.now) }
    {
        let h = self.design.h as u32; // proved not to lose
        let mut layers = self.layers;
        for l in &mut layers {
            *l = l.turned(h);
        }
        Accepted {
            design: self.design,
            layers,
            count: self.count,
        }
    }
}
