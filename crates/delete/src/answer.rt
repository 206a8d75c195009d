// What delete answers, by value. specs/Answer.antt gives each answer's number and total.
use refusals::Refusal;

// The total that the tag had, or why there is no change.
pub type Deleted = Result<u64, Refusal>;
