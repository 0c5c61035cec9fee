//! The opcode bytes, by the names that instructions are shown with.

pub const PUSH: u8 = 0x01;

pub const GETL: u8 = 0x02;

pub const SETL: u8 = 0x03;

pub const POP: u8 = 0x04;

pub const ADD: u8 = 0x05;

pub const SUB: u8 = 0x06;

pub const MUL: u8 = 0x07;

pub const DIV: u8 = 0x08;

pub const MOD: u8 = 0x09;

pub const NEG: u8 = 0x0a;

pub const EQ: u8 = 0x0b;

pub const NE: u8 = 0x0c;

pub const LT: u8 = 0x0d;

pub const LE: u8 = 0x0e;

pub const GT: u8 = 0x0f;

pub const GE: u8 = 0x10;

pub const BAND: u8 = 0x11;

pub const BOR: u8 = 0x12;

pub const NOT: u8 = 0x13;

pub const JUMP: u8 = 0x14;

pub const JZ: u8 = 0x15;

pub const CALL: u8 = 0x16;

pub const RET: u8 = 0x17;

pub const RETV: u8 = 0x18;

pub const INDEX: u8 = 0x19;

pub const SELF: u8 = 0x1a;

pub const PADDR: u8 = 0x1b;

pub const FAULT: u8 = 0x1c;

pub const LOAD: u8 = 0x20;

pub const STORE: u8 = 0x21;

pub const SWAP: u8 = 0x22;

pub const CAS: u8 = 0x23;

pub const AOR: u8 = 0x24;

pub const AADD: u8 = 0x25;

pub const FORK: u8 = 0x26;

pub const PRINT: u8 = 0x27;

pub const FWAIT: u8 = 0x28;

pub const FWAKE: u8 = 0x29;

pub const FREQ: u8 = 0x2a;
