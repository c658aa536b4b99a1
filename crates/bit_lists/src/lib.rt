// No code: the bits of bytes as lists, which is how the rules speak of them (specs/BitList.antt), and what holds of them beside the bits by their
// positions, which is how our own functions do (proofs/).
#![tactic(auto)]
