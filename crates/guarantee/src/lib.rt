// Theorems only: what every list of calls guarantees (specs/), and why (proofs/).
#![tactic(auto)]
