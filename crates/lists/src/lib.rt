// Laws on lists that a slice holds, for every crate above. There is no code here.
//
// specs/ has the words: a list by a rule (`tab`), rows of an image (`grid`), a run put into a list (`put`), equal images one after
// another (`image`, `set_image`), and a fold over the marked places (`over_marked`).
// proofs/ has the laws:
//   Cases   by the two cases of a test
//   Grow    lists that grow piece by piece: `tab` and `grid` are two of them
//   Put     a run put into a list, and what stands before and after it
//   Copy    a list copied to the front of another, or stored element by element
//   Fill    a loop that fills one run or several runs of one list, a place or a row at a time
//   Images  images, and a part that was lent and has come back
//   Fold    folds over marked places, and what they hold by how many are marked
//   Bytes   parts of bytes, and bytes put together, are bytes
#![tactic(auto)]
