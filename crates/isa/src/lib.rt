//! The instructions of the machine, images of programs, and the bytes of an image.
#![tactic(auto)]

mod fault;
mod format;
mod image;
mod instr;
mod laws;
mod limits;
mod lines;
mod opcode;
mod operands;
mod operator;
mod reading;
mod slot;
mod writing;

pub use fault::DecodeFault;
pub use image::Image;
pub use instr::Instr;
pub use laws::{first_fault, one_spelling, read_back};
pub use limits::{
    MOST_ARGUMENTS, MOST_INSTRUCTIONS, MOST_LOCALS, MOST_MEMBER_WORDS, MOST_MONITORS, limit_laws,
};
pub use lines::list_lines;
pub use operator::Operator;
pub use reading::decode;
pub use slot::Slot;
pub use writing::encode;
