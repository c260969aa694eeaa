// No code: document 01, "Checked by hand", the cases marked P.
#![tactic(auto)]
