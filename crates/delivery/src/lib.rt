// A message that is announced arrives: sender and receiver joined by two queues of frames; the theorem is in specs/ and proofs/.
#![tactic(auto)]
