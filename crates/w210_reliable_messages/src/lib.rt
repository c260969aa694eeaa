// No code: document 02, W-210, as one record.
#![tactic(auto)]
