// What vstd promises of a number's bytes, restated: its shifts and masks (specs/); that our definitions keep it (proofs/). No code.
#![tactic(auto)]
