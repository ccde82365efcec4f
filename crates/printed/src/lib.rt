// The text of a whole stream, and that a call of `reader::log` hands it to its writes. specs/Printed.antt has both as definitions; proofs/Printed.antt
// has the theorem. There is no code here.
#![tactic(auto)]
