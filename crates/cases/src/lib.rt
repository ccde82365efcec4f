// The starred cases of document 01, 'Numbers to hold the rules to', as one table about the definitions: specs/Table.antt says
// them, proofs/Table.antt proves them by computing. There is no code here; the code's contracts cite the same definitions.
#![tactic(auto)]
