// The calls of documents 01 and 02 for C: each answers the documents' numbers, a refusal with zeros. include/salwoerk.h describes them.

#![tactic(auto)]

ghost use Rattle.std.specs.Prelude.{◌≤◌, ◌≡◌};
ghost use Rattle.equilibrium.specs.Depth.{find_depth};
ghost use Rattle.equilibrium.specs.Moment.{moment_at};
ghost use Rattle.clauses.specs.Check.{check_of, listed};
ghost use Rattle.clauses.specs.Trial.{trial_of};
ghost use Rattle.section.specs.Section.{counted, links_of};
ghost use Rattle.refusals.specs.Chain.{first_failing};
ghost use Rattle.refusals.specs.Number.{number_or_0};
ghost use Rattle.record.specs.Refusals.{read_tests, write_tests};
ghost use Rattle.record.specs.Read.{read_of, RestIgnored};
ghost use Rattle.record.specs.Write.{written_of, buffer_of};
ghost use Rattle.record.specs.RoundTrip.{ReadsBack};
ghost use Rattle.listing.specs.Answers.{list_written, list_buffer};
ghost use Rattle.engine.specs.Answers.{depth_answer, moment_answer};

use clauses::Listed;
use equilibrium::Depth;
use record::{Reading, Written};
use refusals::Refusal;
use section::{Layer, Load, Section};

// The refusal, 0 for none; the depth in tenths of a millimetre, up to 10h or beyond it; and the trials of the halving rule, 0 where refused
// and beyond 10h. Numbers, as below: C has no Result.
#[repr(C)]
#[derive(Clone, Copy, Default)]
pub struct DepthAnswer {
    pub refusal: u64,
    pub depth: u64,
    pub trials: u64,
}

// The refusal, 0 for none, and the moment resistance in N·mm.
#[repr(C)]
#[derive(Clone, Copy)]
pub struct MomentAnswer {
    pub refusal: u64,
    pub moment: i64,
}

impl From<Result<Depth, Refusal>> for DepthAnswer {
    ghost from_gives = { λ answer d. d ≡ depth_answer answer };

    fn from(answer: Result<Depth, Refusal>) -> DepthAnswer {
        let zeros = DepthAnswer::default();
        match answer {
            Ok(Depth::At(depth, trials)) => DepthAnswer {
                depth,
                trials,
                ..zeros
            },
            Ok(Depth::Beyond(depth)) => DepthAnswer { depth, ..zeros },
            Err(refusal) => DepthAnswer {
                refusal: refusal.number(),
                ..zeros
            },
        }
    }
}

impl From<Result<i64, Refusal>> for MomentAnswer {
    ghost from_gives = { λ answer m. m ≡ moment_answer answer };

    fn from(answer: Result<i64, Refusal>) -> MomentAnswer {
        match answer {
            Ok(moment) => MomentAnswer { refusal: 0, moment },
            Err(refusal) => MomentAnswer {
                refusal: refusal.number(),
                moment: 0,
            },
        }
    }
}

#[unsafe(no_mangle)]
pub extern "C" fn salwoerk_find_depth(s: Section, n: i64) -> DepthAnswer
    ensures value { result ≡ depth_answer (find_depth s n) }
    ensures never_exceeds_15 { result.trials ≤ 15 }
{
    equilibrium::find_depth(s, n).into()
}

#[unsafe(no_mangle)]
pub extern "C" fn salwoerk_moment_at(s: Section, u: u64) -> MomentAnswer
    ensures { result ≡ moment_answer (moment_at s u) }
{
    equilibrium::moment_at(s, u).into()
}

#[unsafe(no_mangle)]
pub extern "C" fn salwoerk_check(s: Section, l: Load) -> Listed
    ensures { result ≡ listed (check_of s l) }
{
    clauses::numbers::check_listed(s, l)
}

#[unsafe(no_mangle)]
pub extern "C" fn salwoerk_try_layer(s: Section, l: Load, place: usize, layer: Layer) -> Listed
    ensures { result ≡ listed (trial_of s l place layer) }
{
    clauses::try_layer(s, l, place, layer).into()
}

#[unsafe(no_mangle)]
pub extern "C" fn salwoerk_read(bytes: &[u8]) -> Reading
    ensures value { result ≡ read_of bytes.now }
    ensures refusal { result.refusal ≡ number_or_0 (first_failing (read_tests bytes.now)) }
    ensures rest_ignored { RestIgnored bytes.now result }
{
    record::reader::read(bytes)
}

#[unsafe(no_mangle)]
pub extern "C" fn salwoerk_write(s: Section, l: Load, buffer: &mut [u8]) -> Written
    ensures value { result ≡ written_of (counted s) (links_of s) l buffer.old }
    ensures lent { buffer.new ≡ buffer_of (counted s) (links_of s) l buffer.old }
    ensures refusal { result.refusal ≡ number_or_0 (first_failing (write_tests (counted s) (links_of s) l buffer.old)) }
    ensures round_trip { ReadsBack s l result buffer.new }
{
    record::writer::write(s, l, buffer)
}

// The lines of the list of an input's records, without the first line: how many bytes they are, 0 for an input without a record.
// 25, and no byte changed, where the buffer is shorter than 12 bytes for each byte of input and 48: a list can be so long.
#[unsafe(no_mangle)]
pub extern "C" fn salwoerk_list(input: &[u8], out: &mut [u8]) -> Written
    ensures value { result ≡ list_written input.now out.old }
    ensures lent { out.new ≡ list_buffer input.now out.old }
{
    listing::list(input, out)
}
