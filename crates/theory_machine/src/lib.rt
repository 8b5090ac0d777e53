// What ties the language's integers to the whole numbers: laws in proofs/, one for each form of code, over the width. No code.
#![tactic(auto)]
