// Lists of patches: what they do to an image, and what is promised of it. The definitions stand in
// specs/, the promise is the law `promised` in proofs/ListLaws.antt.
#![tactic(auto)]
