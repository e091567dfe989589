// No code: the statements that need several layers, in specs/, and their proofs.
#![tactic(auto)]
