// No code: a field is every second line of a frame's planes, and this crate is the mathematics of that.
// Definitions stand in specs/, laws in proofs/.
#![tactic(auto)]
