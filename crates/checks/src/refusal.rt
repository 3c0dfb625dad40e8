// Why a call refuses, and its answer as a number.
ghost use Rattle.std.specs.Prelude.{◌≡◌, cond};
ghost use Rattle.checks.specs.Refusals.{number_of, answer_of};

// The check that failed, by its number in the stated order.
#[derive(Clone, Copy, Debug, PartialEq, Eq)]
pub enum Refusal {
    Lines = 1,
    Sizes = 2,
    Numbers = 3,
    Entries = 4,
    Challenge = 5,
    Positions = 6,
    NewItem = 7,
    Openings = 8,
    Values = 9,
    Roots = 10,
    Claims = 11,
    Points = 12,
    LeadingOne = 13,
}

impl Refusal {
    pub fn number(self) -> u32
        ensures { result ≡ number_of self }
    {
        self as u32
    }
}

// The answer to C: 0, or the number of the check that failed.
pub fn answer(verdict: Result<(), Refusal>) -> u32
    ensures { result ≡ answer_of verdict }
{
    match verdict {
        Ok(()) => 0,
        Err(refusal) => refusal.number(),
    }
}

// Refuses where a check fails.
pub fn ensure(passes: bool, refusal: Refusal) -> Result<(), Refusal>
    ensures { result ≡ cond passes (Ok tt) (Err refusal) }
{
    if passes { Ok(()) } else { Err(refusal) }
}
