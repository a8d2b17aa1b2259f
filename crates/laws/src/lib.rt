// Theorems about the definitions of the rules. No function: specs/ has what they speak of, proofs/ has them.

#![tactic(auto)]
