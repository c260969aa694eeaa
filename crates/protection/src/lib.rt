// No code: what sealing and opening come to over repeats and over many openings, stated in specs/ and proved in proofs/.
#![tactic(auto)]
