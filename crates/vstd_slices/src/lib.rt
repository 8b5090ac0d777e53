// What vstd promises of slices, restated for lists of bytes (specs/); that our definitions keep it, and that nothing else does (proofs/). No code.
#![tactic(auto)]
