// No code: the three demands, each as one record.
#![tactic(auto)]
