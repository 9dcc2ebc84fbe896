// The calls on a state's bytes as definitions, and what is claimed of these bytes, in specs/; the laws, in proofs/: no code.
#![tactic(auto)]
