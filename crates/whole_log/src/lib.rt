// What the program prints of a whole stream, as one definition on the list of its bytes; and that bytes read in any pieces, by the steps
// that the crate `stream` proves, give just that. There is no code here.
//
// specs/Log.antt defines the log, specs/Pieces.antt what a reading in pieces is. In proofs/:
//   Equation  the log by its own equation
//   Right     a step, and the end of the bytes, against the log
//   Pieces    THE THEOREM: a reading in any pieces prints the log of all the bytes; and every list of pieces is read
//   Store     what stands in the store at first does not matter
#![tactic(auto)]
