// No code: document 02, W-211, as one record.
#![tactic(auto)]
