// Number 7 is never given: whenever a pass works the correlation out, it is finite. There is no code here. specs/Passes.antt has the statements about passes, over any
// images within ±2^22 and over prepared frames; Calls.antt those about any call of the alignment, of the aligner and of the library's two functions over them that a
// contract admits; Log.antt that about every line of a log; Needed.antt shows why frames are asked to be bytes. In proofs/:
//   Passes   a pass, by the bounds of its images (crates prepare, warp, stats and verdict)
//   Calls    the alignment and the aligner
//   Codes    the library
//   Log      the log of a stream
//   Needed   the example
#![tactic(auto)]
