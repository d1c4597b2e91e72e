// An example of every answer that the public functions with the frames' own memory can give, for clients and for the monitor:
// memories and arguments at which the contract allows it. There is no code here: the examples are in proofs/.

#![tactic(auto)]
