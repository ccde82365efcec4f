// What each public answer commits to: any two results that a public function's contract admits are equal, and so is what each lent slice
// holds afterwards. specs/Commits.antt says once what that is of any contract (`Commits`) and has a statement for each such function,
// specs/Library.antt for those of the library; they speak of the contracts themselves. proofs/ has a proof of each. There is no code here.
#![tactic(auto)]
