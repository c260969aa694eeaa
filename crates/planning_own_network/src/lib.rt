// No code: how often one message goes out on a network of which it is known who hears whom, as one record in specs/, proved in proofs/.
#![tactic(auto)]
