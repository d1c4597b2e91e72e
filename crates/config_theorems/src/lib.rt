// Theorems on the contracts of config: the answer of `check` is determined, right bytes are accepted, and
// a configuration that is written and read is the same. There is no code here: they are in proofs/.

#![tactic(auto)]
