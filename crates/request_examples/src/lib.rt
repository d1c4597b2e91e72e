// An example of every answer that reading a request from bytes can give: bytes at which the contract allows it. There is no
// code here: the examples are in proofs/.

#![tactic(auto)]
