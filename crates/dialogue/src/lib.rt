// What the head says and what the meter makes of it, byte by byte, over all messages and all states. There is no code here.

#![tactic(auto)]
