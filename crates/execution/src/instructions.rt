//! Instructions, as decoding hands them over. The names are those of lh5801.rs or of the manual where there is one; the others, such as Memory or ToX, say in plain words what the kind does.
use crate::places::{Half, Page, Place, Register};

/// What is done with A and an operand.
#[derive(Clone, Copy)]
pub enum Operation {
    Sbc,
    Adc,
    Lda,
    Cpa,
    And,
    Ora,
    Dcs,
    Dca,
    Eor,
    Bit,
}

/// What is done to a byte in memory with a byte in the code.
#[derive(Clone, Copy)]
pub enum Change {
    Ani,
    Ori,
    Adi,
}

/// What a branch or a vector asks of the flags.
#[derive(Clone, Copy)]
pub enum Condition {
    NoCarry,
    Carry,
    NoHalfCarry,
    HalfCarry,
    NotZero,
    Zero,
    NoOverflow,
    Overflow,
    Always,
}

/// The word that X is copied to or set from.
#[derive(Clone, Copy)]
pub enum Word {
    Of(Register),
    S,
    P,
}

/// What has no operand but A. Tta and Att are T to A and A to T, Ita is the input port to A, and Am0 and
/// Am1 are A to the timer, with its bit 8 clear and set.
#[derive(Clone, Copy)]
pub enum Accumulator {
    IncA,
    DecA,
    Ror,
    Shr,
    Shl,
    Rol,
    Aex,
    Tta,
    Att,
    Ita,
    Am0,
    Am1,
}

/// Which way a branch goes.
#[derive(Clone, Copy)]
pub enum Direction {
    Forward,
    Backward,
}

/// What is set or cleared.
#[derive(Clone, Copy)]
pub enum Signal {
    Pu,
    Pv,
    Disp,
    CarryFlag,
    InterruptEnable,
}

/// An instruction, with the place of its operand where it has one. The truth value of a signal
/// says that it is set, and the number of Vector is that of the vector, which VectorIf reads in the code.
#[derive(Clone, Copy)]
pub enum Instruction {
    Alu(Operation, Place),
    Sta(Place),
    Memory(Change, Place),
    Bii(Place),
    Drr(Page),
    Drl(Page),
    Load(Half),
    Compare(Half),
    Inc(Half),
    Dec(Half),
    IncWord(Register),
    DecWord(Register),
    Sin(Register),
    Sde(Register),
    Lin(Register),
    Lde(Register),
    Branch(Direction, Condition),
    Lop,
    VectorIf(Condition),
    Vector(u8),
    Jmp,
    Sjp,
    Rtn,
    Rti,
    LoadS,
    Tin,
    Cin,
    OnA(Accumulator),
    Sets(Signal, bool),
    PopWord(Register),
    PushWord(Register),
    PopA,
    PushA,
    ToX(Word),
    FromX(Word),
    DropWord,
    Adr(Register),
    Off,
    Hlt,
    Cdv,
    Nop,
}

/// An instruction with its states (document 01's term), without those that a taken branch or vector
/// adds.
#[derive(Clone, Copy)]
pub struct Listed {
    pub instruction: Instruction,
    pub states: u8,
}
