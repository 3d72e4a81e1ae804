#![tactic(auto)]

// Edits of an image: definitions (specs/) and the laws about them (proofs/). The code stands in the
// crates above.
