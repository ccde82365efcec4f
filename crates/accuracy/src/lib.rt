// How far the cosine and the sine of crate series are from their power series. There is no code here.
//
// For every f32 theta from -2 to 2 the answer of cos is within 2^-24 of the cosine's series through theta^16, and that
// of sin within 2^-23 of the sine's through theta^17: `CosineNear` and `SineNear` in specs/Accuracy.antt, over whole numbers. In proofs/:
//   Cosine      the cosine
//   Sine        the sine
//   Close       the distance of two fractions, and how distances add up
//   Recurrence  the distance of a recurrence from its series, for any divisors
//   Taylor      those series are Taylor's; the square that the recurrences start from
//   Near        the distance after rounding to f32
//   Below       from 15/8 on the sine is below 1
#![tactic(auto)]
