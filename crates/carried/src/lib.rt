// What is proved of the receiver's record by value holds of the record in lent bytes: the run of calls and the theorem are in specs/ and proofs/.
#![tactic(auto)]
