// What a program in C or Rust calls, on byte slices and numbers. No function here asks anything of its caller.
// Stays: slices and numbers, since C calls them; arrays in locals, as long as the limits allow, since the archive links with no allocator.
#![tactic(auto)]

pub mod add;
pub mod check;
pub mod file;
pub mod input;
pub mod output;
pub mod serve;
