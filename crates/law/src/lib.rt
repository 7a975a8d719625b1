// Laws of the calls: the power-of-two law (specs/Law.antt states it, proofs/Theorem.antt proves it), that of prices
// (specs/Prices.antt, proofs/Prices.antt) and others of docs/LAWS.md. No code.

#![tactic(auto)]
