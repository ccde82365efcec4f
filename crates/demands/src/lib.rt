// The demands as theorems about any results that the alignment's contract admits, so that they speak of the program. There is no code here.
//
// Demand 1: each call ends with a pose of four finite numbers, theta in -2..2, or a refusal number of the table, and its number says what passes
// were done and what work and marks hold. specs/Finite.antt says it of one end; `CallEnds` in specs/Demands.antt is the statement.
// Demand 3: only marked pixels count. Two calls past their checks whose prepared templates hold the same bits at each pixel that the rules
// mark in any pass of the first give the same number, pass count, pose and correlation, bit for bit. specs/Agree.antt says
// which pixels and which bits; `SameAnswer` in specs/Demands.antt is the statement. specs/Calls.antt says what a call is that a contract
// admits. In proofs/:
//   Finite   demand 1, of the definitions
//   Agree    demand 3, of the definitions
//   Bits     a prepared pixel is told by its bits
//   Bytes    templates' bytes, where no side changes and the filter is 1
//   Demands  the statements
#![tactic(auto)]
