// No code: who is delivered a message in a network, stated in specs/ and proved in proofs/.
#![tactic(auto)]
