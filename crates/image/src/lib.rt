#![tactic(auto)]

// What an image is: definitions (specs/) and the laws about them (proofs/). The code stands in the
// crates above.
