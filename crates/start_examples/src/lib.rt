// An example of every answer that the monitor's start and check can give: bytes and memories at which the contract
// allows it. There is no code here: the examples are in proofs/.

#![tactic(auto)]
