// What vstd states of UTF-8, restated (specs/); that our definitions keep it, and that nothing else does (proofs/). No code.
// Beside vstd's utf8.rs: its definitions stand in specs/Decoding, Encoding, Places and Characters; what it proves in proofs/Encoding, Widths,
// Correspondence, Partial, Boundaries, ByteRanges and Characters; that its definitions are ours in proofs/Decoding, Encoding,
// Whole, Last, Places and Characters. What is exported promises specs/Promises, with the laws Promised, Kept and Pinned.
#![tactic(auto)]
