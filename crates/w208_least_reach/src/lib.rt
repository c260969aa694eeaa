// No code: document 02, W-208, as one record.
#![tactic(auto)]
