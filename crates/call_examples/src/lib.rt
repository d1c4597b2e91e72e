// An example of every answer to calls in bytes, and to sequences of them: bytes and memories at which the contract
// allows it. There is no code here: the examples are in proofs/.

#![tactic(auto)]
