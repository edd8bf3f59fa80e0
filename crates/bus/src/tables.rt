//! The shape of each opcode, what is read and written after its own bytes. Tables of their own, which shapes_right in proofs/Shapes.antt holds against the decoding: with a
//! second caller the compiler no longer puts the decoding into the step, which then costs a third more.
ghost use Rattle.std.specs.Prelude.{◌≡◌};
ghost use Rattle.execution.specs.Code.Shapes.{shape_by};

use execution::Opcode;
use execution::instructions::Change::{Adi, Ani, Ori};
use execution::instructions::Condition::{
    Always, Carry, HalfCarry, NoCarry, NoHalfCarry, NotZero, Overflow, Zero,
};
use execution::places::Page::{Me0, Me1};
use execution::places::Place::{Fixed, Pointer};
use execution::places::Register::{U, X, Y};
use execution::shapes::Action::{Read, RotateLeft, RotateRight, StoreA, Test, Update};
use execution::shapes::Shape;
use execution::shapes::Shape::{At, Operand, Popped, PushA, PushWord, Sjp, Tin, Vector, VectorIf};

// Short names, so that a table stands in rows. An unlisted byte; nothing more, a byte and a word of the code; bytes from the stack.
const NONE: Option<Shape> = None;

const OWN: Option<Shape> = Some(Operand(0));

const BYTE: Option<Shape> = Some(Operand(1));

const WORD: Option<Shape> = Some(Operand(2));

const POP1: Option<Shape> = Some(Popped(1));

const POP2: Option<Shape> = Some(Popped(2));

const POP3: Option<Shape> = Some(Popped(3));

// What is done at the address in X, Y or U, or at the word W in the code, on page 0 or, with a 1, on page 1.
const READ_X: Option<Shape> = Some(At(Read, Pointer(Me0, X)));

const READ_Y: Option<Shape> = Some(At(Read, Pointer(Me0, Y)));

const READ_U: Option<Shape> = Some(At(Read, Pointer(Me0, U)));

const READ_W: Option<Shape> = Some(At(Read, Fixed(Me0)));

const READ_X1: Option<Shape> = Some(At(Read, Pointer(Me1, X)));

const READ_Y1: Option<Shape> = Some(At(Read, Pointer(Me1, Y)));

const READ_U1: Option<Shape> = Some(At(Read, Pointer(Me1, U)));

const READ_W1: Option<Shape> = Some(At(Read, Fixed(Me1)));

const STA_X: Option<Shape> = Some(At(StoreA, Pointer(Me0, X)));

const STA_Y: Option<Shape> = Some(At(StoreA, Pointer(Me0, Y)));

const STA_U: Option<Shape> = Some(At(StoreA, Pointer(Me0, U)));

const STA_W: Option<Shape> = Some(At(StoreA, Fixed(Me0)));

const STA_X1: Option<Shape> = Some(At(StoreA, Pointer(Me1, X)));

const STA_Y1: Option<Shape> = Some(At(StoreA, Pointer(Me1, Y)));

const STA_U1: Option<Shape> = Some(At(StoreA, Pointer(Me1, U)));

const STA_W1: Option<Shape> = Some(At(StoreA, Fixed(Me1)));

const ANI_X: Option<Shape> = Some(At(Update(Ani), Pointer(Me0, X)));

const ANI_Y: Option<Shape> = Some(At(Update(Ani), Pointer(Me0, Y)));

const ANI_U: Option<Shape> = Some(At(Update(Ani), Pointer(Me0, U)));

const ANI_W: Option<Shape> = Some(At(Update(Ani), Fixed(Me0)));

const ANI_X1: Option<Shape> = Some(At(Update(Ani), Pointer(Me1, X)));

const ANI_Y1: Option<Shape> = Some(At(Update(Ani), Pointer(Me1, Y)));

const ANI_U1: Option<Shape> = Some(At(Update(Ani), Pointer(Me1, U)));

const ANI_W1: Option<Shape> = Some(At(Update(Ani), Fixed(Me1)));

const ORI_X: Option<Shape> = Some(At(Update(Ori), Pointer(Me0, X)));

const ORI_Y: Option<Shape> = Some(At(Update(Ori), Pointer(Me0, Y)));

const ORI_U: Option<Shape> = Some(At(Update(Ori), Pointer(Me0, U)));

const ORI_W: Option<Shape> = Some(At(Update(Ori), Fixed(Me0)));

const ORI_X1: Option<Shape> = Some(At(Update(Ori), Pointer(Me1, X)));

const ORI_Y1: Option<Shape> = Some(At(Update(Ori), Pointer(Me1, Y)));

const ORI_U1: Option<Shape> = Some(At(Update(Ori), Pointer(Me1, U)));

const ORI_W1: Option<Shape> = Some(At(Update(Ori), Fixed(Me1)));

const ADI_X: Option<Shape> = Some(At(Update(Adi), Pointer(Me0, X)));

const ADI_Y: Option<Shape> = Some(At(Update(Adi), Pointer(Me0, Y)));

const ADI_U: Option<Shape> = Some(At(Update(Adi), Pointer(Me0, U)));

const ADI_W: Option<Shape> = Some(At(Update(Adi), Fixed(Me0)));

const ADI_X1: Option<Shape> = Some(At(Update(Adi), Pointer(Me1, X)));

const ADI_Y1: Option<Shape> = Some(At(Update(Adi), Pointer(Me1, Y)));

const ADI_U1: Option<Shape> = Some(At(Update(Adi), Pointer(Me1, U)));

const ADI_W1: Option<Shape> = Some(At(Update(Adi), Fixed(Me1)));

const BII_X: Option<Shape> = Some(At(Test, Pointer(Me0, X)));

const BII_Y: Option<Shape> = Some(At(Test, Pointer(Me0, Y)));

const BII_U: Option<Shape> = Some(At(Test, Pointer(Me0, U)));

const BII_W: Option<Shape> = Some(At(Test, Fixed(Me0)));

const BII_X1: Option<Shape> = Some(At(Test, Pointer(Me1, X)));

const BII_Y1: Option<Shape> = Some(At(Test, Pointer(Me1, Y)));

const BII_U1: Option<Shape> = Some(At(Test, Pointer(Me1, U)));

const BII_W1: Option<Shape> = Some(At(Test, Fixed(Me1)));

const DRR_X: Option<Shape> = Some(At(RotateRight, Pointer(Me0, X)));

const DRR_X1: Option<Shape> = Some(At(RotateRight, Pointer(Me1, X)));

const DRL_X: Option<Shape> = Some(At(RotateLeft, Pointer(Me0, X)));

const DRL_X1: Option<Shape> = Some(At(RotateLeft, Pointer(Me1, X)));

// What is pushed, and single instructions.
const PUSH_A: Option<Shape> = Some(PushA);

const TIN: Option<Shape> = Some(Tin);

const SJP: Option<Shape> = Some(Sjp);

const PUSH_X: Option<Shape> = Some(PushWord(X));

const PUSH_Y: Option<Shape> = Some(PushWord(Y));

const PUSH_U: Option<Shape> = Some(PushWord(U));

// The vectors whose number is the opcode.
const V_C0: Option<Shape> = Some(Vector(0xc0));

const V_C2: Option<Shape> = Some(Vector(0xc2));

const V_C4: Option<Shape> = Some(Vector(0xc4));

const V_C6: Option<Shape> = Some(Vector(0xc6));

const V_C8: Option<Shape> = Some(Vector(0xc8));

const V_CA: Option<Shape> = Some(Vector(0xca));

const V_CC: Option<Shape> = Some(Vector(0xcc));

const V_CE: Option<Shape> = Some(Vector(0xce));

const V_D0: Option<Shape> = Some(Vector(0xd0));

const V_D2: Option<Shape> = Some(Vector(0xd2));

const V_D4: Option<Shape> = Some(Vector(0xd4));

const V_D6: Option<Shape> = Some(Vector(0xd6));

const V_D8: Option<Shape> = Some(Vector(0xd8));

const V_DA: Option<Shape> = Some(Vector(0xda));

const V_DC: Option<Shape> = Some(Vector(0xdc));

const V_DE: Option<Shape> = Some(Vector(0xde));

const V_E0: Option<Shape> = Some(Vector(0xe0));

const V_E2: Option<Shape> = Some(Vector(0xe2));

const V_E4: Option<Shape> = Some(Vector(0xe4));

const V_E6: Option<Shape> = Some(Vector(0xe6));

const V_E8: Option<Shape> = Some(Vector(0xe8));

const V_EA: Option<Shape> = Some(Vector(0xea));

const V_EC: Option<Shape> = Some(Vector(0xec));

const V_EE: Option<Shape> = Some(Vector(0xee));

const V_F0: Option<Shape> = Some(Vector(0xf0));

const V_F2: Option<Shape> = Some(Vector(0xf2));

const V_F4: Option<Shape> = Some(Vector(0xf4));

const V_F6: Option<Shape> = Some(Vector(0xf6));

// A vector under a condition.
const IF_NC: Option<Shape> = Some(VectorIf(NoCarry));

const IF_C: Option<Shape> = Some(VectorIf(Carry));

const IF_NH: Option<Shape> = Some(VectorIf(NoHalfCarry));

const IF_H: Option<Shape> = Some(VectorIf(HalfCarry));

const IF_NZ: Option<Shape> = Some(VectorIf(NotZero));

const IF_Z: Option<Shape> = Some(VectorIf(Zero));

const IF_V: Option<Shape> = Some(VectorIf(Overflow));

const IF_ALWAYS: Option<Shape> = Some(VectorIf(Always));

// The first page.
static FIRST: [Option<Shape>; 256] = [
    OWN, READ_X, OWN, READ_X, OWN, READ_X, OWN, READ_X, OWN, READ_X, OWN, READ_X, READ_X, READ_X,
    STA_X, READ_X, OWN, READ_Y, OWN, READ_Y, OWN, READ_Y, OWN, READ_Y, OWN, READ_Y, OWN, READ_Y,
    READ_Y, READ_Y, STA_Y, READ_Y, OWN, READ_U, OWN, READ_U, OWN, READ_U, OWN, READ_U, OWN, READ_U,
    OWN, READ_U, READ_U, READ_U, STA_U, READ_U, OWN, NONE, OWN, NONE, OWN, NONE, OWN, NONE, OWN,
    NONE, NONE, NONE, NONE, NONE, NONE, NONE, OWN, STA_X, OWN, STA_X, OWN, READ_X, OWN, READ_X,
    BYTE, ANI_X, BYTE, ORI_X, BYTE, BII_X, BYTE, ADI_X, OWN, STA_Y, OWN, STA_Y, OWN, READ_Y, OWN,
    READ_Y, BYTE, ANI_Y, BYTE, ORI_Y, BYTE, BII_Y, BYTE, ADI_Y, OWN, STA_U, OWN, STA_U, OWN,
    READ_U, OWN, READ_U, BYTE, ANI_U, BYTE, ORI_U, BYTE, BII_U, BYTE, ADI_U, NONE, NONE, OWN, NONE,
    NONE, NONE, NONE, NONE, NONE, NONE, NONE, NONE, NONE, NONE, NONE, NONE, OWN, BYTE, OWN, BYTE,
    OWN, BYTE, OWN, BYTE, BYTE, BYTE, POP3, BYTE, READ_X, BYTE, BYTE, BYTE, OWN, BYTE, OWN, BYTE,
    OWN, BYTE, OWN, BYTE, NONE, BYTE, POP2, BYTE, READ_Y, BYTE, BYTE, BYTE, OWN, READ_W, OWN,
    READ_W, OWN, READ_W, OWN, READ_W, OWN, READ_W, WORD, READ_W, READ_U, READ_W, STA_W, READ_W,
    NONE, BYTE, NONE, BYTE, NONE, BYTE, NONE, BYTE, OWN, BYTE, WORD, BYTE, NONE, BYTE, SJP, BYTE,
    V_C0, IF_NC, V_C2, IF_C, V_C4, IF_NH, V_C6, IF_H, V_C8, IF_NZ, V_CA, IF_Z, V_CC, IF_ALWAYS,
    V_CE, IF_V, V_D0, OWN, V_D2, DRR_X, V_D4, OWN, V_D6, DRL_X, V_D8, OWN, V_DA, OWN, V_DC, OWN,
    V_DE, OWN, V_E0, OWN, V_E2, OWN, V_E4, NONE, V_E6, NONE, V_E8, ANI_W, V_EA, ORI_W, V_EC, BII_W,
    V_EE, ADI_W, V_F0, OWN, V_F2, NONE, V_F4, TIN, V_F6, READ_X, NONE, OWN, NONE, OWN, NONE, NONE,
    NONE, NONE,
];

// After FD.
static AFTER_FD: [Option<Shape>; 256] = [
    NONE, READ_X1, NONE, READ_X1, NONE, READ_X1, NONE, READ_X1, OWN, READ_X1, POP2, READ_X1,
    READ_X1, READ_X1, STA_X1, READ_X1, NONE, READ_Y1, NONE, READ_Y1, NONE, READ_Y1, NONE, READ_Y1,
    OWN, READ_Y1, POP2, READ_Y1, READ_Y1, READ_Y1, STA_Y1, READ_Y1, NONE, READ_U1, NONE, READ_U1,
    NONE, READ_U1, NONE, READ_U1, OWN, READ_U1, POP2, READ_U1, READ_U1, READ_U1, STA_U1, READ_U1,
    NONE, NONE, NONE, NONE, NONE, NONE, NONE, NONE, NONE, NONE, OWN, NONE, NONE, NONE, NONE, NONE,
    OWN, NONE, OWN, NONE, NONE, NONE, NONE, NONE, OWN, ANI_X1, OWN, ORI_X1, OWN, BII_X1, OWN,
    ADI_X1, OWN, NONE, OWN, NONE, NONE, NONE, NONE, NONE, OWN, ANI_Y1, OWN, ORI_Y1, NONE, BII_Y1,
    OWN, ADI_Y1, OWN, NONE, OWN, NONE, NONE, NONE, NONE, NONE, NONE, ANI_U1, OWN, ORI_U1, NONE,
    BII_U1, NONE, ADI_U1, NONE, NONE, NONE, NONE, NONE, NONE, NONE, NONE, NONE, NONE, NONE, NONE,
    NONE, NONE, NONE, NONE, NONE, OWN, NONE, NONE, NONE, NONE, NONE, NONE, PUSH_X, NONE, POP1,
    NONE, READ_X1, NONE, OWN, NONE, NONE, NONE, NONE, NONE, NONE, NONE, NONE, NONE, PUSH_Y, NONE,
    NONE, NONE, READ_Y1, NONE, NONE, NONE, NONE, READ_W1, NONE, READ_W1, NONE, READ_W1, NONE,
    READ_W1, PUSH_U, READ_W1, OWN, READ_W1, READ_U1, READ_W1, STA_W1, READ_W1, NONE, OWN, NONE,
    NONE, NONE, NONE, NONE, NONE, NONE, NONE, OWN, NONE, NONE, NONE, OWN, NONE, OWN, OWN, NONE,
    NONE, NONE, NONE, NONE, NONE, PUSH_A, NONE, OWN, NONE, OWN, NONE, OWN, NONE, NONE, NONE, NONE,
    DRR_X1, NONE, NONE, NONE, DRL_X1, NONE, NONE, OWN, NONE, NONE, NONE, OWN, NONE, NONE, NONE,
    NONE, NONE, NONE, NONE, NONE, NONE, NONE, ANI_W1, OWN, ORI_W1, OWN, BII_W1, NONE, ADI_W1, NONE,
    NONE, NONE, NONE, NONE, NONE, NONE, NONE, NONE, NONE, NONE, NONE, NONE, NONE, NONE, NONE,
];

#[tactic(auto, using(crate::proofs::Shapes::shape_first, crate::proofs::Shapes::shape_after_fd))]
pub fn shape_of(opcode: Opcode) -> Option<Shape>
    ensures { result ≡ shape_by opcode }
{
    match opcode {
        Opcode::First(byte) => FIRST[usize::from(byte)],
        Opcode::AfterFd(byte) => AFTER_FD[usize::from(byte)],
    }
}
