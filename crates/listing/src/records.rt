// The records of an input, back to back. The list goes by them, and so does whatever else takes the same input.
ghost use Rattle.std.specs.Prelude.{◌≡◌};
ghost use Rattle.std.specs.Iterator.{YieldsFirst, item_count};
ghost use Rattle.listing.specs.Records.{ends, records_left};

use record::Reading;
use record::reader::read;
use refusals::Refusal;

// What follows the records that are read: empty where the list has ended.
#[derive(Clone, Copy)]
pub struct Records<'a> {
    pub rest: &'a [u8],
}

// Does the list end after the refusal of that number? No length is known after these three. (By the number: what is read is the `Reading` that C is
// given, of which the laws of the list speak.)
fn list_ends(refusal: u64) -> bool
    ensures { result ≡ ends refusal }
{
    refusal == Refusal::MapCut.number()
        || refusal == Refusal::UnknownField.number()
        || refusal == Refusal::RecordCut.number()
}

// What is read of each record in turn.
impl<'a> Iterator for Records<'a> {
    type Item = Reading;

    ghost next_gives = { YieldsFirst records_left };

    ghost remaining = { item_count records_left };

    fn next(&mut self) -> Option<Reading> {
        if self.rest.is_empty() {
            return None;
        }
        let reading = read(self.rest);
        if list_ends(reading.refusal) {
            self.rest = &[];
        } else {
            self.rest = self.rest.split_at(reading.length).1;
        }
        Some(reading)
    }
}
