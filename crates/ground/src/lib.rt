// Words and laws that know nothing of zones: tests, lists, bits, signed numbers. The definitions stand in specs/, the laws in proofs/.

#![tactic(auto)]
