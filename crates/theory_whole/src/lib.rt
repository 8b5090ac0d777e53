// What an integer operation means, in whole numbers: the definitions stand in specs/, their laws in proofs/. No code.
#![tactic(auto)]
