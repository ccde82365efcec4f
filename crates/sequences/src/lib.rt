// The aligner's calls: how one ends, and what record and store hold after any list of them. There is no code here.
//
// One call: specs/Estimates.antt says what an answer of `estimate` may be and, by its number, what became of record, store, work and marks.
// Many calls: specs/Sequences.antt says what it is to call one after another, and specs/Chains.antt what that is of calls that the contract
// admits: the store begins with the last frame that was taken, and the record names its sides. In proofs/:
//   Estimates   one call: `EstimateEnds`
//   Sequences   calls one after another: `RanKeeps`, `LastKept`
#![tactic(auto)]
