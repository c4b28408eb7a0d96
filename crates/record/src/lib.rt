// Records: document 01, "The record". A section and its load as bytes, read and written.

#![tactic(auto)]

mod bytes;
mod fields;
mod map;
pub mod reader;
pub mod writer;

ghost use Rattle.std.specs.Prelude.{◌≡◌};
ghost use Rattle.record.specs.Write.{written_as};

pub use bytes::put;
use refusals::Refusal;
use section::{Load, Section};

// What is read: refusal 0 with the record's length, section and load; or the refusal's number with zeros, and the length where one is
// named. The number is the C interface's, as it is below.
#[repr(C)]
#[derive(Clone, Copy)]
pub struct Reading {
    pub refusal: u64,
    pub length: usize,
    pub section: Section,
    pub load: Load,
}

// What is answered of a write: refusal 0 and the record's length; or the refusal's number and 0.
#[repr(C)]
#[derive(Clone, Copy)]
pub struct Written {
    pub refusal: u64,
    pub length: usize,
}

impl From<Result<usize, Refusal>> for Written {
    ghost from_gives = { λ answer r. r ≡ written_as answer };

    fn from(answer: Result<usize, Refusal>) -> Written {
        match answer {
            Ok(length) => Written { refusal: 0, length },
            Err(refusal) => Written {
                refusal: refusal.number(),
                length: 0,
            },
        }
    }
}
