// An example of every answer that the bitmap's public functions can give: words and arguments at which the contract
// allows it. There is no code here: the examples are in proofs/.

#![tactic(auto)]
