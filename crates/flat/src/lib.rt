// A template of one gray is refused in its first pass, where every sum over it is exact. There is no code here: specs/Flat.antt has the statement, of any
// result that the alignment's contract admits. In proofs/:
//   Sums     a sum of one whole number, its mean, and what is left of it: nothing
//   Refused  the first pass, and the call
#![tactic(auto)]
