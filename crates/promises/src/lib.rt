// What follows from the meter's definitions for every state and every event. There is no code here: the claims' words are in specs/, the theorems in proofs/.

#![tactic(auto)]
