// The definitions at numbers: theorems by computation, in proofs/. No code.

#![tactic(auto)]
