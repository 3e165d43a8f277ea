// No session can disturb another: the rules of one session by itself, and the theorem, are in specs/ and proofs/.
#![tactic(auto)]
