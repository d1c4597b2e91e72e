// An example of every answer that the shared allocator's public functions can give, its clients' and the monitor's: memories
// and arguments at which the contract allows it. There is no code here: the examples are in proofs/.

#![tactic(auto)]
