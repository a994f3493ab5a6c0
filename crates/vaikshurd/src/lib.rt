// The exported calls, for a gateway in C: numbers and byte slices over the proved library.
#![tactic(auto)]

mod answers;
mod calls;
mod lookups;
mod readers;
mod writers;
