// No code: document 02, W-212, as one record.
#![tactic(auto)]
