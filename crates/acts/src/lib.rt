// Theorems only: what is guaranteed of every list of calls, loads and saves (specs/), and why (proofs/).
#![tactic(auto)]
