// What the pins tell of a turn alone and of a shift alone. There is no code here: specs/Still.antt says when nothing is felt along an axis, specs/Felt.antt
// what is felt of a turn about the middle of the frame and of a shift. In proofs/:
//   Still     less than half a step is nothing, and the shift that keeps a point in its place, rounded to f32, is that near
//   Posed     the numbers of a pose by its cosine and sine
//   Turning   a turn about the middle
//   Shifting  a shift alone, and a frame of one pixel
#![tactic(auto)]
