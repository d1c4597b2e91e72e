// An example of every answer that the machines' public functions can give: sound memories and a request at which
// the contract allows it; and which answers a request never gets. There is no code here: the examples are in proofs/.

#![tactic(auto)]
