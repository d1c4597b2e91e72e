// An example of every answer that the public functions of regions and of sets of regions can give: words and arguments at
// which the contract allows it. There is no code here: the examples are in proofs/.

#![tactic(auto)]
