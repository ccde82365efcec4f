// Marks: a byte for each pixel, 1 where it is marked and 0 where it is not; and their count. There is no code here.
#![tactic(auto)]
