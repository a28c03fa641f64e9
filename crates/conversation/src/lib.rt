// The head's session and a meter in conversation, message by message, over all sessions, meters and posts. There is no code here.

#![tactic(auto)]
