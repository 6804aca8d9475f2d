// What a refusal is told by in C.
ghost use Rattle.std.specs.Prelude.{◌≡◌};

use report::FileRefusal;

// What is answered where a call was done.
pub(crate) const DONE: i32 = 0;

// What is answered for fewer places than cells: the only refusal that has no number.
const FEW_PLACES: i32 = -1;

// What a call answers for a refusal, and of a file's fault where it is.
#[repr(C)]
#[derive(Clone, Copy, PartialEq, Eq, Debug, Default)]
pub struct FaultNumbers {
    pub place: usize,
    pub number: i32,
    pub section: u8,
    pub inner: u8,
}

impl FaultNumbers {
    ghost use Rattle.host.specs.Files.{fault_numbers};

    // The numbers of a refusal.
    pub(crate) fn of(refusal: FileRefusal) -> FaultNumbers
        ensures { result ≡ fault_numbers refusal }
    {
        match refusal {
            FileRefusal::File(fault) => FaultNumbers {
                place: fault.place,
                number: fault.flaw.number().into(),
                section: fault.section.number(),
                inner: fault.flaw.inner_number(),
            },
            FileRefusal::FewEntries => FaultNumbers {
                number: refusal.number().into(),
                ..FaultNumbers::default()
            },
            FileRefusal::FewPlaces => FaultNumbers {
                number: FEW_PLACES,
                ..FaultNumbers::default()
            },
        }
    }
}
