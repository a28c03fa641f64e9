// The facts that document 01 prints, in one statement: specs/Facts.antt, proved in proofs/Facts.antt.

#![tactic(auto)]
