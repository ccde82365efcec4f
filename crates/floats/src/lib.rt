// Laws on f32 values, for every crate above. There is no code here.
//
// specs/ has the words: a bound on a value's size (`Within`, `UpTo`, `AtLeast`), which fractions the
// format holds (`Rep`), and a value's size in units of 2^-149 (`units_of`, `units_at`).
// proofs/ has the laws:
//   Within    rounding keeps every bound that the format holds: sums, products, quotients
//   Exactly   a value is written in one way; what the format holds rounds to itself; exact results
//   Signs     bounds from tests and from below; exact differences
//   Fraction  x less its whole part is exact
//   Sums      sums over marked places, and their bound by how many are marked
//   FromZero  values from +0 to a bound: squares, their sums; bounds from below
//   Nearest   what rounding gives, and how far it moves a fraction
//   Patterns  the values of bit patterns
#![tactic(auto)]
