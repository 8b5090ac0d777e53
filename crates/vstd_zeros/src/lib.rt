// What vstd promises of zeros and ones, restated: its counts by halving and its lists of facts (specs/); that our definitions keep it (proofs/). No code.
#![tactic(auto)]
