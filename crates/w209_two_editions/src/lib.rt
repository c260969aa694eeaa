// No code: document 02, W-209, as one record.
#![tactic(auto)]
