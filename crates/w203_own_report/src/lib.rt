// No code: document 02, W-203, as one record.
#![tactic(auto)]
