//! The SPC700 processor: its registers and its step, over any bus.
#![tactic(auto)]

mod access;
mod access_counts;
mod bits;
mod branches;
pub mod bus;
mod bytes;
pub mod cpu;
mod execute;
mod instruct;
mod jumps;
mod laws;
pub mod mem_bus;
mod opcodes;
pub mod operand;
mod registers;
mod stack;
mod stepping;
mod word_instructions;

pub use bus::{Bus, CYCLES_PER_SAMPLE, MAX_CALLS, MAX_CALLS_BEFORE_STEP};
pub use cpu::Cpu;
pub use laws::{
    accesses_are_those_of_the_table, asking_makes_the_step, forms_suit_their_operations,
    steps_are_short,
};
pub use mem_bus::MemBus;
pub use stepping::{step, step_awake};
