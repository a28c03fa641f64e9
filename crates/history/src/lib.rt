// What a history tells, from its events alone. There is no code here: the definitions are in specs/, examples and laws in proofs/.

#![tactic(auto)]
