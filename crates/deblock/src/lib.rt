// The C interface as a library: each function hands on to one public call and answers what that answers. None
// asks anything of its caller. The crate `deblock_c` has them for C, and include/deblock.h declares them.
#![tactic(auto)]

pub mod derivation;
pub mod filtering;
pub mod lending;
pub mod showing;
pub mod slicing;
pub mod streams;
pub mod visiting;
