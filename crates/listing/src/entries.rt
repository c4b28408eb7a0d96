// The values of a line, for each case of what is read.
ghost use Rattle.std.specs.Prelude.{◌≡◌};
ghost use Rattle.listing.specs.Records.{answer_of};

use clauses::Listed;
use clauses::numbers::{check_listed, refused_listed};
use record::Reading;

// A record that is read is checked; one that is refused is not. (By the number: `answer_of` is over the
// `Reading` that C is given.)
pub fn entry_of(reading: &Reading) -> Listed
    ensures { result ≡ answer_of reading.now }
{
    match reading.refusal {
        0 => check_listed(reading.section, reading.load),
        refusal => refused_listed(refusal),
    }
}
