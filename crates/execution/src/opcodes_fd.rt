//! The opcodes after FD, written as those of the first page are. Rows 7 and F list nothing.
#![tactic(auto)]

ghost use Rattle.std.specs.Prelude.{◌≡◌, None, slice_index_or};
ghost use Rattle.execution.specs.OpcodesFd.{row0, row3, row4, row8, row_a, row_b, row_c, row_d, row_e, decoded_fd};

use crate::instructions::{Accumulator, Change, Instruction, Listed, Operation, Signal, Word};
use crate::opcodes::listed;
use crate::places::Register::{U, X, Y};
use crate::places::{Half, Page, Place, Register};

// Rows 0, 1 and 2: A with the byte of page 1 that X, Y or U points to; the register to X, and
// popped.
fn row_0(column: u8, r: Register) -> Option<Listed>
    ensures { result ≡ slice_index_or (row0 r) column None }
{
    let at = Place::Pointer(Page::Me1, r);
    match column {
        0x1 => listed(Instruction::Alu(Operation::Sbc, at), 11),
        0x3 => listed(Instruction::Alu(Operation::Adc, at), 11),
        0x5 => listed(Instruction::Alu(Operation::Lda, at), 10),
        0x7 => listed(Instruction::Alu(Operation::Cpa, at), 11),
        0x8 => listed(Instruction::ToX(Word::Of(r)), 11),
        0x9 => listed(Instruction::Alu(Operation::And, at), 11),
        0xa => listed(Instruction::PopWord(r), 15),
        0xb => listed(Instruction::Alu(Operation::Ora, at), 11),
        0xc => listed(Instruction::Alu(Operation::Dcs, at), 17),
        0xd => listed(Instruction::Alu(Operation::Eor, at), 11),
        0xe => listed(Instruction::Sta(at), 10),
        0xf => listed(Instruction::Alu(Operation::Bit, at), 11),
        _ => None,
    }
}

// Row 3: a word dropped from the stack.
fn row_3(column: u8) -> Option<Listed>
    ensures { result ≡ slice_index_or row3 column None }
{
    match column {
        0xa => listed(Instruction::DropWord, 15),
        _ => None,
    }
}

// Rows 4, 5 and 6: the high half of X, Y or U, X to the register, and the byte of page 1 that it points to;
// at_8, at_c and at_e stand in columns 8, C and E.
fn row_4(
    column: u8,
    r: Register,
    at_8: Option<Listed>,
    at_c: Option<Listed>,
    at_e: Option<Listed>,
) -> Option<Listed>
    ensures { result ≡ slice_index_or (row4 r at_8 at_c at_e) column None }
{
    let at = Place::Pointer(Page::Me1, r);
    match column {
        0x0 => listed(Instruction::Inc(Half::High(r)), 9),
        0x2 => listed(Instruction::Dec(Half::High(r)), 9),
        0x8 => at_8,
        0x9 => listed(Instruction::Memory(Change::Ani, at), 17),
        0xa => listed(Instruction::FromX(Word::Of(r)), 11),
        0xb => listed(Instruction::Memory(Change::Ori, at), 17),
        0xc => at_c,
        0xd => listed(Instruction::Bii(at), 14),
        0xe => at_e,
        0xf => listed(Instruction::Memory(Change::Adi, at), 17),
        _ => None,
    }
}

// Rows 8 and 9: X or Y pushed, and DCA; at_1, at_a and at_e stand in columns 1, A and E.
fn row_8(
    column: u8,
    r: Register,
    at_1: Option<Listed>,
    at_a: Option<Listed>,
    at_e: Option<Listed>,
) -> Option<Listed>
    ensures { result ≡ slice_index_or (row8 r at_1 at_a at_e) column None }
{
    match column {
        0x1 => at_1,
        0x8 => listed(Instruction::PushWord(r), 14),
        0xa => at_a,
        0xc => listed(
            Instruction::Alu(Operation::Dca, Place::Pointer(Page::Me1, r)),
            19,
        ),
        0xe => at_e,
        _ => None,
    }
}

// Row A: U pushed, DCA, A with the byte of page 1 at the word in the code, and T to A.
fn row_a(column: u8) -> Option<Listed>
    ensures { result ≡ slice_index_or row_a column None }
{
    let fixed = Place::Fixed(Page::Me1);
    match column {
        0x1 => listed(Instruction::Alu(Operation::Sbc, fixed), 17),
        0x3 => listed(Instruction::Alu(Operation::Adc, fixed), 17),
        0x5 => listed(Instruction::Alu(Operation::Lda, fixed), 16),
        0x7 => listed(Instruction::Alu(Operation::Cpa, fixed), 17),
        0x8 => listed(Instruction::PushWord(U), 14),
        0x9 => listed(Instruction::Alu(Operation::And, fixed), 17),
        0xa => listed(Instruction::OnA(Accumulator::Tta), 9),
        0xb => listed(Instruction::Alu(Operation::Ora, fixed), 17),
        0xc => listed(
            Instruction::Alu(Operation::Dca, Place::Pointer(Page::Me1, U)),
            19,
        ),
        0xd => listed(Instruction::Alu(Operation::Eor, fixed), 17),
        0xe => listed(Instruction::Sta(fixed), 16),
        0xf => listed(Instruction::Alu(Operation::Bit, fixed), 17),
        _ => None,
    }
}

// Row B: HLT, the input port to A, IE cleared.
fn row_b(column: u8) -> Option<Listed>
    ensures { result ≡ slice_index_or row_b column None }
{
    match column {
        0x1 => listed(Instruction::Hlt, 9),
        0xa => listed(Instruction::OnA(Accumulator::Ita), 9),
        0xe => listed(Instruction::Sets(Signal::InterruptEnable, false), 8),
        _ => None,
    }
}

// Row C: the display, PSH A, A added to X, and A to the timer with bit 8 clear.
fn row_c(column: u8) -> Option<Listed>
    ensures { result ≡ slice_index_or row_c column None }
{
    match column {
        0x0 => listed(Instruction::Sets(Signal::Disp, false), 8),
        0x1 => listed(Instruction::Sets(Signal::Disp, true), 8),
        0x8 => listed(Instruction::PushA, 11),
        0xa => listed(Instruction::Adr(X), 11),
        0xc => listed(Instruction::Nop, 9),
        0xe => listed(Instruction::OnA(Accumulator::Am0), 9),
        _ => None,
    }
}

// Row D: moves of digits, A added to Y, and A to the timer with bit 8 set.
fn row_d(column: u8) -> Option<Listed>
    ensures { result ≡ slice_index_or row_d column None }
{
    match column {
        0x3 => listed(Instruction::Drr(Page::Me1), 16),
        0x7 => listed(Instruction::Drl(Page::Me1), 16),
        0xa => listed(Instruction::Adr(Y), 11),
        0xe => listed(Instruction::OnA(Accumulator::Am1), 9),
        _ => None,
    }
}

// Row E: the byte of page 1 at the word in the code, changed or tested by the byte after it;
// A added to U, and A to T.
fn row_e(column: u8) -> Option<Listed>
    ensures { result ≡ slice_index_or row_e column None }
{
    let fixed = Place::Fixed(Page::Me1);
    match column {
        0x9 => listed(Instruction::Memory(Change::Ani, fixed), 23),
        0xa => listed(Instruction::Adr(U), 11),
        0xb => listed(Instruction::Memory(Change::Ori, fixed), 23),
        0xc => listed(Instruction::OnA(Accumulator::Att), 9),
        0xd => listed(Instruction::Bii(fixed), 20),
        0xf => listed(Instruction::Memory(Change::Adi, fixed), 23),
        _ => None,
    }
}

/// The instruction of a byte after FD: an arm for each row, as in the table.
#[tactic(auto, unfolding(crate::specs::OpcodesFd::decoded_fd))]
pub fn decode_fd(byte: u8) -> Option<Listed>
    ensures { result ≡ decoded_fd byte }
{
    let column = byte % 16;
    match byte / 16 {
        0x0 => row_0(column, X),
        0x1 => row_0(column, Y),
        0x2 => row_0(column, U),
        0x3 => row_3(column),
        0x4 => row_4(
            column,
            X,
            listed(Instruction::ToX(Word::S), 11),
            listed(Instruction::Off, 8),
            listed(Instruction::FromX(Word::S), 11),
        ),
        0x5 => row_4(
            column,
            Y,
            listed(Instruction::ToX(Word::P), 11),
            None,
            listed(Instruction::FromX(Word::P), 11),
        ),
        0x6 => row_4(column, U, None, None, None),
        0x8 => row_8(
            column,
            X,
            listed(Instruction::Sets(Signal::InterruptEnable, true), 8),
            listed(Instruction::PopA, 12),
            listed(Instruction::Cdv, 8),
        ),
        0x9 => row_8(column, Y, None, None, None),
        0xa => row_a(column),
        0xb => row_b(column),
        0xc => row_c(column),
        0xd => row_d(column),
        0xe => row_e(column),
        _ => None,
    }
}
