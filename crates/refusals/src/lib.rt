// Why a call is turned down: document 01, "When a call is turned down", and 02's tickets 3, 6, 8, 9 and 10. A refusal has a name here and a number there.

#![tactic(auto)]

ghost use Rattle.std.specs.Prelude.{◌≡◌};
ghost use Rattle.std.specs.Result.{result_err};
ghost use Rattle.refusals.specs.Chain.{test};
ghost use Rattle.refusals.specs.Number.{number_of};

// By the documents' numbers.
#[derive(Clone, Copy, Debug, PartialEq, Eq)]
pub enum Refusal {
    // b outside 50 to 2,000 mm
    Width = 1,
    // h outside 50 to 2,000 mm
    Height = 2,
    // fck not in the table
    ConcreteClass = 3,
    // fyk outside 400 to 600
    SteelStrength = 4,
    // number of layers
    LayerCount = 5,
    // a layer's depth
    LayerDepth = 6,
    // a layer's area
    LayerArea = 7,
    // N out of range
    AxialForce = 8,
    // M out of range
    BendingMoment = 9,
    // V out of range
    ShearForce = 10,
    // N below the internal force at depth 1
    ForceTooLow = 11,
    // no u up to 30h reaches N
    ForceTooHigh = 12,
    // u not in 1 to 30h
    DepthRange = 13,
    // fewer than 4 bytes
    MapCut = 20,
    // a bit stands that has no field
    UnknownField = 21,
    // fewer bytes than the map calls for
    RecordCut = 22,
    // a field that must stand is absent
    FieldMissing = 23,
    // the lent buffer is too short
    BufferTooShort = 25,
    // the list's input is too long
    InputTooLong = 26,
    // the area of links
    LinkArea = 27,
    // their spacing
    LinkSpacing = 28,
    // links present and N not 0
    LinksUnderForce = 29,
    // layers of a record not in their sequence on disk
    LayerSequence = 31,
    // situation other than 1 or 2
    DesignSituation = 32,
    // a place beyond the number of layers
    LayerPlace = 33,
    // αcc outside 0.80 to 1.00
    LongTermFactor = 34,
}

impl Refusal {
    // The documents' number. (By name, where a `From` would not say which number it is.)
    pub fn number(self) -> u64
        ensures { result ≡ number_of self }
    {
        self as u64
    }

    // A test of a call's sequence: this refusal unless it is passed.
    pub fn unless(self, passed: bool) -> Result<(), Refusal>
        ensures { result_err result ≡ test self passed }
    {
        if passed { Ok(()) } else { Err(self) }
    }
}
