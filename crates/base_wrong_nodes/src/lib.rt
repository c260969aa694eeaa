// No code: the programs that document 01 wants shut out, as one record.
#![tactic(auto)]
