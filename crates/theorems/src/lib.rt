// No code: the third demand, and what else holds of runs of offers, is in specs/, the proofs in proofs/.
#![tactic(auto)]
