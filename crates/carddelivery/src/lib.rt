// The delivery of a card, as theorems: its frames fed to a meter byte by byte, and the card of one meter brought to another. No code.

#![tactic(auto)]
