// What the calls answer, by value. specs/Answer.antt gives each answer's number and values.
use refusals::Refusal;

// A leaf's number and total.
#[derive(Clone, Copy)]
pub struct Leaf {
    pub number: u32,
    pub total: u64,
}

// A leaf that is found, or why there is none.
pub type Found = Result<Leaf, Refusal>;

// A leaf's tag length and total.
#[derive(Clone, Copy)]
pub struct Facts {
    pub length: u32,
    pub total: u64,
}
