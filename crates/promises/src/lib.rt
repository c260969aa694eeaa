// No code: what the promise of a public function must be, and the proof that each is so.
#![tactic(auto)]
