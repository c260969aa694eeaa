// No code: what `relay` prints, as one record.
#![tactic(auto)]
