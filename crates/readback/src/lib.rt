// What crosses the line and comes back: laws about the definitions that both sides cite. There is no code here.

#![tactic(auto)]
