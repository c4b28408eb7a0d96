// A section with one layer altered: document 02, ticket 9.
ghost use Rattle.std.specs.Prelude.{◌≡◌};
ghost use Rattle.section.specs.Code.Altered.{with_layer};

use super::{Layer, Section};

impl Section {
    // The section with this layer at a place, from 0: in place of the one that stands there, or as one more where the place is the number of
    // layers. Where the place is none of the sixteen, none is written, and a number that is the greatest of its type stays: with more than sixteen
    // layers nobody looks at them.
    pub fn with_layer(self, place: usize, layer: Layer) -> Section
        ensures { result ≡ with_layer place layer self }
    {
        let mut layers = self.layers;
        if place < layers.len() {
            layers[place] = layer;
        }
        let count = if place == self.count {
            self.count.saturating_add(1)
        } else {
            self.count
        };
        Section {
            layers,
            count,
            ..self
        }
    }
}
