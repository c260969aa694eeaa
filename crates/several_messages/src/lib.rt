// No code: what goes out on the air when several messages are sent, each at its time, stated in specs/ and proved in proofs/.
#![tactic(auto)]
