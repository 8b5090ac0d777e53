// A number as digits in any base: the definitions stand in specs/, their laws in proofs/. No code.
#![tactic(auto)]
