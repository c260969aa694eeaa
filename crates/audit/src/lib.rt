// No code: the demands, the requests' records and the worked examples, named in one place.
#![tactic(auto)]
