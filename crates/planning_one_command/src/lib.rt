// No code: several messages at once, and what one command and its acknowledgements put on the air, as one record. Stated in specs/, proved in proofs/.
#![tactic(auto)]
