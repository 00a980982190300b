//! Tests of BPF instructions, programs, the interpreter and the tools, and of observers.
//!
//! The expected images and numbers are worked out by hand from the RFC of the instructions. No test
//! uses the server.
#![tactic(auto)]

#[cfg(test)]
mod alu_tests;
#[cfg(test)]
mod asm_tests;
#[cfg(test)]
mod hostile_tests;
#[cfg(test)]
mod isa_tests;
#[cfg(test)]
mod machine_tests;
#[cfg(test)]
mod memory_tests;
#[cfg(test)]
mod observer_tests;
#[cfg(test)]
mod run_tests;
#[cfg(test)]
mod tool_tests;
