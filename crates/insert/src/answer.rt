// What insert answers, by value. specs/Answer.antt gives each answer's number and total.
use refusals::Refusal;

// Nothing for a new tag, the total that a held one had, or why there is no change.
pub type Inserted = Result<Option<u64>, Refusal>;
