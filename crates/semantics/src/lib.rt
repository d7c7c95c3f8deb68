#![tactic(auto)]

// Definitions and theorems only: specs/ is read first; proofs/ has the theorems about it.
