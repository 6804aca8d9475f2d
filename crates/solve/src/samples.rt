// Samples, and why they are not solved.
ghost use Rattle.std.specs.Prelude.{◌≡◌, ◌<◌, length};
ghost use Rattle.solve.specs.Surveying.{sample, samples_refusal_number};

use limits::Refusal;
use std::error::Error;
use std::fmt;

/// What was surveyed at one cell.
#[derive(Clone, Copy)]
pub struct Sample {
    pub reading: u16,
    /// The trust class of the reading.
    pub class: u8,
    /// The weights of the ties to the neighbours on the right and below.
    pub right: u16,
    pub down: u16,
}

// The sample of a cell.
pub(crate) fn sample_of(samples: &[Sample], cell: usize) -> Sample
    requires { cell < length samples.now }
    ensures { result ≡ sample samples.now cell }
{
    samples[cell]
}

/// Why samples are not solved.
#[derive(Clone, Copy, PartialEq, Eq, Debug)]
pub enum SamplesRefusal {
    /// There are fewer samples than the tile has cells.
    FewSamples,
    /// A call on the tile would be refused so.
    Call(Refusal),
}

impl SamplesRefusal {
    /// The number that the refusal is reported by; 0 for too few samples, which the table of refusals does not have.
    pub fn number(self) -> u8
        ensures { result ≡ samples_refusal_number self }
    {
        match self {
            SamplesRefusal::FewSamples => 0,
            SamplesRefusal::Call(why) => why.number(),
        }
    }
}

impl From<Refusal> for SamplesRefusal {
    ghost use Rattle.solve.specs.declared.samples.SamplesRefusal.TheVariants.{Call};

    ghost from_gives = { λ why e. e ≡ Call why };

    fn from(why: Refusal) -> SamplesRefusal {
        SamplesRefusal::Call(why)
    }
}

impl fmt::Display for SamplesRefusal {
    ghost use Rattle.std.specs.Prelude.{Some};
    ghost use Rattle.solve.specs.Surveying.{samples_refusal_text};

    ghost output = { λ e. Some (samples_refusal_text e) };

    fn fmt<W: fmt::Write>(&self, f: &mut fmt::Formatter<W>) -> fmt::Result {
        match self {
            SamplesRefusal::FewSamples => f.write_str("fewer samples than cells"),
            SamplesRefusal::Call(why) => write!(f, "{why}"),
        }
    }
}

impl Error for SamplesRefusal {}
