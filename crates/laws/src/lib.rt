#![tactic(auto)]

// Generic definitions and laws with no state in them: folds over an index, and numbers as rows of bits.
// There is no code here: specs/ has the definitions, proofs/ their laws.
