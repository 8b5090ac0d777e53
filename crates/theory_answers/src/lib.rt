// How a function answers that tells whether, or may refuse: the definitions stand in specs/, their laws in proofs/. No code.
#![tactic(auto)]
