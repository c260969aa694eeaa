// No code: document 02, W-201, as one record.
#![tactic(auto)]
