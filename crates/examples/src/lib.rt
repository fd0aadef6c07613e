#![tactic(auto)]

// Document 01's "Examples on each side of a line", those marked P, shown of the definitions.
// There is no code here: specs/ says how an example is played, proofs/ has the list with its single statement.
