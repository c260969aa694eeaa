// No code: how often one message goes out in a network, stated in specs/ and proved in proofs/.
#![tactic(auto)]
