// An example of every answer that the public functions of configurations can give: bytes, words and arguments at which the
// contract allows it. There is no code here: the examples are in proofs/.

#![tactic(auto)]
