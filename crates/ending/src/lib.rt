// How a decoding finished, and what each ending means.
#![tactic(auto)]

ghost use Rattle.std.specs.Prelude.{◌≡◌};
ghost use Rattle.refusal.specs.Meaning.{packed};
ghost use Rattle.ending.specs.Endings.{meaning};

use refusal::Refusal;

// Refused with the reason, corrected with the number of wrong columns, none, several or hollow with the size of the smallest
// locators.
#[derive(Clone, Copy, PartialEq, Eq)]
pub enum Ending {
    Refused(Refusal),
    Corrected(u8),
    Nothing,
    Several(u8),
    Hollow(u8),
}

impl Ending {
    // Its one number for the C caller: 256 times its code, and its detail.
    pub fn packed(self) -> u32
        ensures { result ≡ packed (meaning self) }
    {
        match self {
            Ending::Refused(refused) => u32::from(refused.number()),
            Ending::Corrected(w) => 256 + u32::from(w),
            Ending::Nothing => 512,
            Ending::Several(t) => 768 + u32::from(t),
            Ending::Hollow(t) => 1024 + u32::from(t),
        }
    }
}
