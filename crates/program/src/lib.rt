// What the run over lent bytes writes is what 01's receiver prints: the theorem is in proofs/.
#![tactic(auto)]
