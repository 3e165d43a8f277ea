// No session can disturb another at a node with both ends, wherever the sender's calls stand: the definitions and the theorem are in specs/ and proofs/.
#![tactic(auto)]
