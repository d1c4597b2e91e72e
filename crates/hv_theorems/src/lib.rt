// What holds of the lent memories after every sequence of requests and of machines' writes to frames that
// they own: the abstract machine's theorems, said of memory. There is no code here: the sequences are
// defined in specs/, and the theorems are in proofs/.

#![tactic(auto)]
