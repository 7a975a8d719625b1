// The power-of-two law at numbers: pairs of inputs that it speaks of, in proofs/. No code.

#![tactic(auto)]
