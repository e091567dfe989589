// No code: the definitions and laws that every crate cites and the kit lacks.
#![tactic(auto)]
