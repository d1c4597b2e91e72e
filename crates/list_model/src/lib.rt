// How a list of requests is carried out: one by one, without the contents, which are cleared at the end.
// There is no code here: the definitions are in specs/, and that this is what the abstract machine says of a
// list is in proofs/.

#![tactic(auto)]
