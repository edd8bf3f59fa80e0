//! The opcodes of the first page: a function for each row of the table, by the column, and the high digit
//! of a byte names its row, the low digit its column.
#![tactic(auto)]

ghost use Rattle.std.specs.Prelude.{◌≡◌, None, slice_index_or};
ghost use Rattle.execution.specs.Opcodes.{listed, row0, row3, row4, row7, branches, row_a, row_b, row_c, row_d, row_e, row_f, decoded};

use crate::instructions::{
    Accumulator, Change, Condition, Direction, Instruction, Listed, Operation, Signal,
};
use crate::places::Register::{U, X, Y};
use crate::places::{Half, Page, Place, Register};

/// An entry: the instruction and its states.
pub fn listed(instruction: Instruction, states: u8) -> Option<Listed>
    ensures { result ≡ listed instruction states }
{
    Some(Listed {
        instruction,
        states,
    })
}

// Rows 0, 1 and 2: A with the low half of X, Y or U, and with the byte of page 0 that it points
// to.
fn row_0(column: u8, r: Register) -> Option<Listed>
    ensures { result ≡ slice_index_or (row0 r) column None }
{
    let low = Place::InHalf(Half::Low(r));
    let at = Place::Pointer(Page::Me0, r);
    match column {
        0x0 => listed(Instruction::Alu(Operation::Sbc, low), 6),
        0x1 => listed(Instruction::Alu(Operation::Sbc, at), 7),
        0x2 => listed(Instruction::Alu(Operation::Adc, low), 6),
        0x3 => listed(Instruction::Alu(Operation::Adc, at), 7),
        0x4 => listed(Instruction::Alu(Operation::Lda, low), 5),
        0x5 => listed(Instruction::Alu(Operation::Lda, at), 6),
        0x6 => listed(Instruction::Alu(Operation::Cpa, low), 6),
        0x7 => listed(Instruction::Alu(Operation::Cpa, at), 7),
        0x8 => listed(Instruction::Sta(Place::InHalf(Half::High(r))), 5),
        0x9 => listed(Instruction::Alu(Operation::And, at), 7),
        0xa => listed(Instruction::Sta(low), 5),
        0xb => listed(Instruction::Alu(Operation::Ora, at), 7),
        0xc => listed(Instruction::Alu(Operation::Dcs, at), 13),
        0xd => listed(Instruction::Alu(Operation::Eor, at), 7),
        0xe => listed(Instruction::Sta(at), 6),
        0xf => listed(Instruction::Alu(Operation::Bit, at), 7),
        _ => None,
    }
}

// Row 3: A with the register that the LH5801 does not have.
fn row_3(column: u8) -> Option<Listed>
    ensures { result ≡ slice_index_or row3 column None }
{
    let missing = Place::InHalf(Half::Missing);
    match column {
        0x0 => listed(Instruction::Alu(Operation::Sbc, missing), 6),
        0x2 => listed(Instruction::Alu(Operation::Adc, missing), 6),
        0x4 => listed(Instruction::Alu(Operation::Lda, missing), 5),
        0x6 => listed(Instruction::Alu(Operation::Cpa, missing), 6),
        0x8 => listed(Instruction::Sta(missing), 5),
        _ => None,
    }
}

// Rows 4, 5 and 6: X, Y or U and its halves, and the byte of page 0 that it points to.
fn row_4(column: u8, r: Register) -> Option<Listed>
    ensures { result ≡ slice_index_or (row4 r) column None }
{
    let at = Place::Pointer(Page::Me0, r);
    match column {
        0x0 => listed(Instruction::Inc(Half::Low(r)), 5),
        0x1 => listed(Instruction::Sin(r), 6),
        0x2 => listed(Instruction::Dec(Half::Low(r)), 5),
        0x3 => listed(Instruction::Sde(r), 6),
        0x4 => listed(Instruction::IncWord(r), 5),
        0x5 => listed(Instruction::Lin(r), 6),
        0x6 => listed(Instruction::DecWord(r), 5),
        0x7 => listed(Instruction::Lde(r), 6),
        0x8 => listed(Instruction::Load(Half::High(r)), 6),
        0x9 => listed(Instruction::Memory(Change::Ani, at), 13),
        0xa => listed(Instruction::Load(Half::Low(r)), 6),
        0xb => listed(Instruction::Memory(Change::Ori, at), 13),
        0xc => listed(Instruction::Compare(Half::High(r)), 7),
        0xd => listed(Instruction::Bii(at), 10),
        0xe => listed(Instruction::Compare(Half::Low(r)), 7),
        0xf => listed(Instruction::Memory(Change::Adi, at), 13),
        _ => None,
    }
}

// Row 7: the register that the LH5801 does not have.
fn row_7(column: u8) -> Option<Listed>
    ensures { result ≡ slice_index_or row7 column None }
{
    match column {
        0x2 => listed(Instruction::Dec(Half::Missing), 5),
        _ => None,
    }
}

// Rows 8 and 9: the branches forward and backward, A with the high half of X or Y, and DCA; at_8 and at_a
// stand in columns 8 and A.
fn branches(
    column: u8,
    direction: Direction,
    r: Register,
    at_8: Option<Listed>,
    at_a: Option<Listed>,
) -> Option<Listed>
    ensures { result ≡ slice_index_or (branches direction r at_8 at_a) column None }
{
    let high = Place::InHalf(Half::High(r));
    match column {
        0x0 => listed(Instruction::Alu(Operation::Sbc, high), 6),
        0x1 => listed(Instruction::Branch(direction, Condition::NoCarry), 8),
        0x2 => listed(Instruction::Alu(Operation::Adc, high), 6),
        0x3 => listed(Instruction::Branch(direction, Condition::Carry), 8),
        0x4 => listed(Instruction::Alu(Operation::Lda, high), 5),
        0x5 => listed(Instruction::Branch(direction, Condition::NoHalfCarry), 8),
        0x6 => listed(Instruction::Alu(Operation::Cpa, high), 6),
        0x7 => listed(Instruction::Branch(direction, Condition::HalfCarry), 8),
        0x8 => at_8,
        0x9 => listed(Instruction::Branch(direction, Condition::NotZero), 8),
        0xa => at_a,
        0xb => listed(Instruction::Branch(direction, Condition::Zero), 8),
        0xc => listed(
            Instruction::Alu(Operation::Dca, Place::Pointer(Page::Me0, r)),
            15,
        ),
        0xd => listed(Instruction::Branch(direction, Condition::NoOverflow), 8),
        0xe => listed(Instruction::Branch(direction, Condition::Always), 6),
        0xf => listed(Instruction::Branch(direction, Condition::Overflow), 8),
        _ => None,
    }
}

// Row A: A with UH, DCA by U, and A with the byte of page 0 at the word in the code.
fn row_a(column: u8) -> Option<Listed>
    ensures { result ≡ slice_index_or row_a column None }
{
    let high = Place::InHalf(Half::High(U));
    let fixed = Place::Fixed(Page::Me0);
    match column {
        0x0 => listed(Instruction::Alu(Operation::Sbc, high), 6),
        0x1 => listed(Instruction::Alu(Operation::Sbc, fixed), 13),
        0x2 => listed(Instruction::Alu(Operation::Adc, high), 6),
        0x3 => listed(Instruction::Alu(Operation::Adc, fixed), 13),
        0x4 => listed(Instruction::Alu(Operation::Lda, high), 5),
        0x5 => listed(Instruction::Alu(Operation::Lda, fixed), 12),
        0x6 => listed(Instruction::Alu(Operation::Cpa, high), 6),
        0x7 => listed(Instruction::Alu(Operation::Cpa, fixed), 13),
        0x8 => listed(Instruction::Sets(Signal::Pv, true), 4),
        0x9 => listed(Instruction::Alu(Operation::And, fixed), 13),
        0xa => listed(Instruction::LoadS, 12),
        0xb => listed(Instruction::Alu(Operation::Ora, fixed), 13),
        0xc => listed(
            Instruction::Alu(Operation::Dca, Place::Pointer(Page::Me0, U)),
            15,
        ),
        0xd => listed(Instruction::Alu(Operation::Eor, fixed), 13),
        0xe => listed(Instruction::Sta(fixed), 12),
        0xf => listed(Instruction::Alu(Operation::Bit, fixed), 13),
        _ => None,
    }
}

// Row B: A with the byte in the code; JMP and SJP.
fn row_b(column: u8) -> Option<Listed>
    ensures { result ≡ slice_index_or row_b column None }
{
    let in_code = Place::InCode;
    match column {
        0x1 => listed(Instruction::Alu(Operation::Sbc, in_code), 7),
        0x3 => listed(Instruction::Alu(Operation::Adc, in_code), 7),
        0x5 => listed(Instruction::Alu(Operation::Lda, in_code), 6),
        0x7 => listed(Instruction::Alu(Operation::Cpa, in_code), 7),
        0x8 => listed(Instruction::Sets(Signal::Pv, false), 4),
        0x9 => listed(Instruction::Alu(Operation::And, in_code), 7),
        0xa => listed(Instruction::Jmp, 12),
        0xb => listed(Instruction::Alu(Operation::Ora, in_code), 7),
        0xd => listed(Instruction::Alu(Operation::Eor, in_code), 7),
        0xe => listed(Instruction::Sjp, 19),
        0xf => listed(Instruction::Alu(Operation::Bit, in_code), 7),
        _ => None,
    }
}

// Row C: the conditional vectors, and in the even columns the vector that the byte itself
// numbers, as in rows D, E and F. Each stands by itself: with one arm for the even columns, 0xc0 + column,
// the compiler's code takes four machine instructions more a step.
fn row_c(column: u8) -> Option<Listed>
    ensures { result ≡ slice_index_or row_c column None }
{
    match column {
        0x0 => listed(Instruction::Vector(0xc0), 4),
        0x1 => listed(Instruction::VectorIf(Condition::NoCarry), 8),
        0x2 => listed(Instruction::Vector(0xc2), 4),
        0x3 => listed(Instruction::VectorIf(Condition::Carry), 8),
        0x4 => listed(Instruction::Vector(0xc4), 4),
        0x5 => listed(Instruction::VectorIf(Condition::NoHalfCarry), 8),
        0x6 => listed(Instruction::Vector(0xc6), 4),
        0x7 => listed(Instruction::VectorIf(Condition::HalfCarry), 8),
        0x8 => listed(Instruction::Vector(0xc8), 4),
        0x9 => listed(Instruction::VectorIf(Condition::NotZero), 8),
        0xa => listed(Instruction::Vector(0xca), 4),
        0xb => listed(Instruction::VectorIf(Condition::Zero), 8),
        0xc => listed(Instruction::Vector(0xcc), 4),
        0xd => listed(Instruction::VectorIf(Condition::Always), 7),
        0xe => listed(Instruction::Vector(0xce), 4),
        0xf => listed(Instruction::VectorIf(Condition::Overflow), 8),
        _ => None,
    }
}

// Row D: shifts, moves of digits, INC A and DEC A.
fn row_d(column: u8) -> Option<Listed>
    ensures { result ≡ slice_index_or row_d column None }
{
    match column {
        0x0 => listed(Instruction::Vector(0xd0), 4),
        0x1 => listed(Instruction::OnA(Accumulator::Ror), 9),
        0x2 => listed(Instruction::Vector(0xd2), 4),
        0x3 => listed(Instruction::Drr(Page::Me0), 12),
        0x4 => listed(Instruction::Vector(0xd4), 4),
        0x5 => listed(Instruction::OnA(Accumulator::Shr), 9),
        0x6 => listed(Instruction::Vector(0xd6), 4),
        0x7 => listed(Instruction::Drl(Page::Me0), 12),
        0x8 => listed(Instruction::Vector(0xd8), 4),
        0x9 => listed(Instruction::OnA(Accumulator::Shl), 6),
        0xa => listed(Instruction::Vector(0xda), 4),
        0xb => listed(Instruction::OnA(Accumulator::Rol), 8),
        0xc => listed(Instruction::Vector(0xdc), 4),
        0xd => listed(Instruction::OnA(Accumulator::IncA), 5),
        0xe => listed(Instruction::Vector(0xde), 4),
        0xf => listed(Instruction::OnA(Accumulator::DecA), 5),
        _ => None,
    }
}

// Row E: PU, and the byte of page 0 at the word in the code, changed or tested by the byte after it.
fn row_e(column: u8) -> Option<Listed>
    ensures { result ≡ slice_index_or row_e column None }
{
    let fixed = Place::Fixed(Page::Me0);
    match column {
        0x0 => listed(Instruction::Vector(0xe0), 4),
        0x1 => listed(Instruction::Sets(Signal::Pu, true), 4),
        0x2 => listed(Instruction::Vector(0xe2), 4),
        0x3 => listed(Instruction::Sets(Signal::Pu, false), 4),
        0x4 => listed(Instruction::Vector(0xe4), 4),
        0x6 => listed(Instruction::Vector(0xe6), 4),
        0x8 => listed(Instruction::Vector(0xe8), 4),
        0x9 => listed(Instruction::Memory(Change::Ani, fixed), 19),
        0xa => listed(Instruction::Vector(0xea), 4),
        0xb => listed(Instruction::Memory(Change::Ori, fixed), 19),
        0xc => listed(Instruction::Vector(0xec), 4),
        0xd => listed(Instruction::Bii(fixed), 16),
        0xe => listed(Instruction::Vector(0xee), 4),
        0xf => listed(Instruction::Memory(Change::Adi, fixed), 19),
        _ => None,
    }
}

// Row F: AEX, TIN, CIN and the carry. FD is not listed here: the byte after it goes to
// `decode_fd`.
fn row_f(column: u8) -> Option<Listed>
    ensures { result ≡ slice_index_or row_f column None }
{
    match column {
        0x0 => listed(Instruction::Vector(0xf0), 4),
        0x1 => listed(Instruction::OnA(Accumulator::Aex), 6),
        0x2 => listed(Instruction::Vector(0xf2), 4),
        0x4 => listed(Instruction::Vector(0xf4), 4),
        0x5 => listed(Instruction::Tin, 7),
        0x6 => listed(Instruction::Vector(0xf6), 4),
        0x7 => listed(Instruction::Cin, 7),
        0x9 => listed(Instruction::Sets(Signal::CarryFlag, false), 4),
        0xb => listed(Instruction::Sets(Signal::CarryFlag, true), 4),
        _ => None,
    }
}

/// The instruction of a first byte: an arm for each row, as in the table. FD names none, so it answers none.
#[tactic(auto, unfolding(crate::specs::Opcodes::decoded))]
pub fn decode_first(byte: u8) -> Option<Listed>
    ensures { result ≡ decoded byte }
{
    let column = byte % 16;
    match byte / 16 {
        0x0 => row_0(column, X),
        0x1 => row_0(column, Y),
        0x2 => row_0(column, U),
        0x3 => row_3(column),
        0x4 => row_4(column, X),
        0x5 => row_4(column, Y),
        0x6 => row_4(column, U),
        0x7 => row_7(column),
        0x8 => branches(
            column,
            Direction::Forward,
            X,
            listed(Instruction::Lop, 8),
            listed(Instruction::Rti, 14),
        ),
        0x9 => branches(
            column,
            Direction::Backward,
            Y,
            None,
            listed(Instruction::Rtn, 11),
        ),
        0xa => row_a(column),
        0xb => row_b(column),
        0xc => row_c(column),
        0xd => row_d(column),
        0xe => row_e(column),
        _ => row_f(column),
    }
}
