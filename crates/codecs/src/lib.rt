// Formats as data: definitions in specs/, their laws in proofs/Lawful.antt, and no code.
#![tactic(auto)]
