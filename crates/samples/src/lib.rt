#![tactic(auto)]

// Samples of the papers, and that each contract allows one answer: laws only, no code.
