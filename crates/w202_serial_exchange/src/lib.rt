// No code: document 02, W-202, as one record.
#![tactic(auto)]
