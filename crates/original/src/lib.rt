// The original's clauses in the original's terms, where they follow from the contracts here by an argument, and
// the answers to a search for a run that the contracts here refuse and the original's accept. There is no code
// here: the terms are in specs/, and the arguments in proofs/. docs/CONTRACTS.md cites them.

#![tactic(auto)]
