// The promises of the library as theorems (specs/Promises, proofs/Promises) and what only they use; there is no function here.

#![tactic(auto)]
