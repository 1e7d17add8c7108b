// The vocabulary that all definitions share and the general laws about it. It has no code of its own.
#![tactic(auto)]
