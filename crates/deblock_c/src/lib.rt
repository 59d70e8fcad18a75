// The archive for C: each function hands on to the one of the same name in the library `deblock`, and
// promises what that promises. None asks anything of its caller. include/deblock.h declares them.
#![tactic(auto)]

pub mod derivation;
pub mod filtering;
pub mod showing;
pub mod slicing;
pub mod streams;
pub mod visiting;
