// For each public call two wrong answers, and the proof that its promise rules them out: specs/ says them, proofs/ has the proofs.

#![tactic(auto)]
