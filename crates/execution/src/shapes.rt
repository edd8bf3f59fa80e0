//! What an instruction reads and writes after its own bytes, as a few cases: the crate bus notes them ahead of a step.
use crate::instructions::{Change, Condition};
use crate::places::{Place, Register};

/// What is done at an address: a read, A stored, ANI, ORI or ADI, BII, DRR, DRL.
#[derive(Clone, Copy)]
pub enum Action {
    Read,
    StoreA,
    Update(Change),
    Test,
    RotateRight,
    RotateLeft,
}

/// Something done at a place in memory; bytes of the code, and bytes from the stack, each by their number; and what TIN, SJP and the rest
/// do, where a vector has its number.
#[derive(Clone, Copy)]
pub enum Shape {
    At(Action, Place),
    Operand(u8),
    Popped(u8),
    PushA,
    PushWord(Register),
    Tin,
    Sjp,
    Vector(u8),
    VectorIf(Condition),
}
