// The standards' worked examples, by the definitions: proofs alone.
#![tactic(auto)]
