// What text is: scalar values, their UTF-8 forms, and the one sequence of scalars that valid bytes are written from. Definitions in specs/, laws in proofs/. No code.
#![tactic(auto)]
