// Why a call is refused: one list for all calls, each with the number that C is given.
#![tactic(auto)]

ghost use Rattle.std.specs.Prelude.{◌≡◌};
ghost use Rattle.refusals.specs.Refusal.{number_of, number_in};

// Each call tests in an order of its own, and gives the first that applies.
#[derive(Clone, Copy, PartialEq, Eq)]
pub enum Refusal {
    Missing = 1, // no held tag is the one that is asked for
    TooLong = 2, // the tag has more bytes than the form allows
    Clash = 3, // the tag begins a held tag, or a held tag begins it
    NoLeaf = 4, // no leaf is free
    NoRecord = 5, // no inner record is free for a branching
    Damaged = 6, // the block is no sound directory
    ShortScratch = 7, // scratch has fewer bytes than the block has records
    Unfit = 8, // the slices are not of the lengths that form and capacities give
    NotInUse = 9, // no leaf in use has the number
}

impl Refusal {
    // Its number.
    pub fn number(self) -> u32
        ensures { result ≡ number_of self }
    {
        self as u32
    }
}

// The number that a call gives back: 0 where it is done.
pub fn number_in<T: Copy>(answer: Result<T, Refusal>) -> u32
    ensures { result ≡ number_in answer }
{
    match answer {
        Ok(_) => 0,
        Err(refusal) => refusal.number(),
    }
}
