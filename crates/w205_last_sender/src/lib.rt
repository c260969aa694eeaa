// No code: document 02, W-205, as one record.
#![tactic(auto)]
