// Theorems about the rules alone, in proofs/: what acceptance gives, collecting, bounds, rule 3 and the tier rule, the book against the source. In specs/ are
// the definitions that these and the contracts of code need beside those of `rules`. No function stands here. docs/PROOFS.md lists the statements.
#![tactic(auto)]
