// No code: the cases of docs/RULES.md as one table are in specs/, their proofs in proofs/.
#![tactic(auto)]
