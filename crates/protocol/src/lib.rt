// Definitions (specs/) and their proofs: the plan, its calls, the history, the trial table. The code here is what all code shares: the calls with their
// numbers, why a call is refused, and the limits.
#![tactic(auto)]

pub mod call;
pub mod limit;
pub mod refusal;
