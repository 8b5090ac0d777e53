// What vstd promises of the integers, restated clause by clause (specs/); that our definitions keep it, over any width (proofs/). No code.
#![tactic(auto)]
