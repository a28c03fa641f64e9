// A meter's reply as the head reads it: each block comes back to the meter's own registers. There is no code here.

#![tactic(auto)]
