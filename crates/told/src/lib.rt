// [13]: a meter holds nothing but what it was told. There is no code here: the claims are in specs/, the theorems in proofs/.

#![tactic(auto)]
