// Moves by whole pixels are exact: with theta 0 and whole tx, ty each marked pixel of the warp is the source's pixel at x + tx, y + ty, and marked are the
// pixels for which that lies inside. There is no code here. specs/Moves.antt has the statement about the definitions, Calls.antt that about any call that
// the contract of warp_three_inverse_map admits, Frames.antt that about prepared frames; Needed.antt shows that its premise and its exception are needed. In proofs/:
//   Point    the computed point of a pixel: x + tx, y + ty, with nothing rounded; so the marks
//   Sample   the four weighed pixels at a whole point: the first of them
//   Moves    the statement about the definitions
//   Images   that about calls
//   Frames   that about frames
//   Needed   both examples
#![tactic(auto)]
