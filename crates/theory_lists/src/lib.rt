// What an operation on a slice of bytes means, in lists: the definitions stand in specs/, their laws in proofs/. No code.
#![tactic(auto)]
