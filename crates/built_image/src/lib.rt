#![tactic(auto)]

// What build_minimal_modern makes is an image that reads as what went in: laws. See specs/Built.antt.
