// No code: how often a message goes out on a network of which it is known who hears whom, stated in specs/ and proved in proofs/.
#![tactic(auto)]
