//! The line that the program prints, as bytes that are written one after another.
//! The longest line has 138 bytes: 3 + 10 + 20 digits for number, steps and states, 2 + 2 + 5 * 4 + 3 + 3 hex digits, 3 * 20 digits for the
//! counters, and a byte after each of the 15 fields. With every decimal field taken at 20 digits it is 165, which a buffer of 200 holds.
ghost use Rattle.std.specs.Prelude.{◌≡◌, ◌+◌, ◌<◌, ◌≤◌, [], ◌∷◌, ◌++◌, length};
ghost use Rattle.run.specs.Line.{Printed, space, hex_digit, decimal_of, hex_of, joined, count_fields, register_fields, counter_fields, line_of, refusal_line_of};
ghost use Rattle.run.specs.Code.LineParts.{spaced, written, KeepsRest};

use crate::record_numbers;
use arithmetic::record::Lh5801;

const SPACE: u8 = b' ';

const NEWLINE: u8 = b'\n';

// A lent buffer that a line is written into, and how many bytes are written.
#[derive(Drop)]
struct LineText<'a> {
    buffer: &'a mut [u8],
    len: usize,
}

// A hex digit, in capitals.
fn hex_digit(value: u16) -> u8
    requires { value < 16 }
    ensures { result ≡ hex_digit value }
{
    b"0123456789ABCDEF"[usize::from(value)]
}

// Each method asks for room for what it writes: the buffer is fixed, since the project has no heap.
impl LineText<'_> {
    #[tactic(auto, unfolding(crate::specs::Code::LineParts::written))]
    fn push(&mut self, byte: u8)
        requires { self.old.len < length self.old.buffer.now }
        ensures bytes { written self.new ≡ written self.old ++ (byte ∷ []) }
        ensures len { self.new.len ≡ self.old.len + 1 }
        ensures rest { KeepsRest self }
    {
        self.buffer[self.len] = byte;
        self.len += 1;
    }

    // The digits of a number, without leading zeros; by recursion, since `write!` promises only what an Ok means.
    #[tactic(auto, using(crate::proofs::PrintedLine::decimal_one, crate::proofs::PrintedLine::decimal_more, crate::proofs::PrintedLine::length_one, crate::proofs::PrintedLine::length_more, std::proofs::Common::append_assoc))]
    fn put_decimal(&mut self, value: u64)
        requires { self.old.len + length (decimal_of value) ≤ length self.old.buffer.now }
        ensures bytes { written self.new ≡ written self.old ++ decimal_of value }
        ensures len { self.new.len ≡ self.old.len + length (decimal_of value) }
        ensures rest { KeepsRest self }
    {
        if value < 10 {
            self.push(b'0' + value as u8);
        } else {
            self.put_decimal(value / 10);
            self.push(b'0' + (value % 10) as u8);
        }
    }

    // So many hex digits of a number, the lowest ones.
    #[tactic(auto, using(crate::proofs::PrintedLine::hex_more, std::proofs::Common::append_assoc), unfolding(crate::specs::Line::hex_of))]
    fn put_hex(&mut self, value: u16, digits: u8)
        requires { self.old.len + digits ≤ length self.old.buffer.now }
        ensures bytes { written self.new ≡ written self.old ++ hex_of digits value }
        ensures len { self.new.len ≡ self.old.len + digits }
        ensures rest { KeepsRest self }
    {
        if 0 < digits {
            self.put_hex(value / 16, digits - 1);
            self.push(hex_digit(value % 16));
        }
    }

    // A decimal field, and the byte after it.
    #[tactic(auto, using(crate::proofs::PrintedLine::length_decimal))]
    fn decimal(&mut self, value: u64, after: u8)
        requires { self.old.len + 21 ≤ length self.old.buffer.now }
        ensures bytes { written self.new ≡ written self.old ++ decimal_of value ++ (after ∷ []) }
        ensures len { self.new.len ≤ self.old.len + 21 }
        ensures rest { KeepsRest self }
    {
        self.put_decimal(value);
        self.push(after);
    }

    // A field of so many hex digits, and the space after it.
    fn hex(&mut self, value: u16, digits: u8)
        requires { self.old.len + digits + 1 ≤ length self.old.buffer.now }
        ensures bytes { written self.new ≡ written self.old ++ hex_of digits value ++ (space ∷ []) }
        ensures len { self.new.len ≡ self.old.len + digits + 1 }
        ensures rest { KeepsRest self }
    {
        self.put_hex(value, digits);
        self.push(SPACE);
    }

    // Number, steps and states.
    fn counts(&mut self, number: u8, steps: u32, states: u64)
        requires { self.old.len + 63 ≤ length self.old.buffer.now }
        ensures bytes { written self.new ≡ written self.old ++ spaced (count_fields number steps states) }
        ensures len { self.new.len ≤ self.old.len + 63 }
        ensures rest { KeepsRest self }
    {
        self.decimal(u64::from(number), SPACE);
        self.decimal(u64::from(steps), SPACE);
        self.decimal(states, SPACE);
    }

    // A, T, X, Y, U, S, P, TM and flags.
    fn registers(&mut self, cpu: Lh5801)
        requires { self.old.len + 39 ≤ length self.old.buffer.now }
        ensures bytes { written self.new ≡ written self.old ++ spaced (register_fields cpu) }
        ensures len { self.new.len ≡ self.old.len + 39 }
        ensures rest { KeepsRest self }
    {
        self.hex(u16::from(cpu.a), 2);
        self.hex(u16::from(cpu.t), 2);
        self.hex(cpu.x, 4);
        self.hex(cpu.y, 4);
        self.hex(cpu.u, 4);
        self.hex(cpu.s, 4);
        self.hex(cpu.p, 4);
        self.hex(cpu.tm, 3);
        self.hex(record_numbers::flags_of(cpu), 3);
    }

    // Timer states, previous states and ticks, which end the line.
    fn counters(&mut self, cpu: Lh5801)
        requires { self.old.len + 63 ≤ length self.old.buffer.now }
        ensures bytes { written self.new ≡ written self.old ++ joined (counter_fields cpu) }
        ensures len { self.new.len ≤ self.old.len + 63 }
        ensures rest { KeepsRest self }
    {
        self.decimal(cpu.timer_state, SPACE);
        self.decimal(cpu.step_previous_state, SPACE);
        self.decimal(cpu.ticks, NEWLINE);
    }
}

/// The line of a call: its bytes in the buffer, and how many they are.
#[tactic(auto, using(std::proofs::Common::append_assoc), unfolding(crate::specs::Line::line_of, crate::specs::Code::LineParts::written))]
pub fn line(buffer: &mut [u8; 200], number: u8, steps: u32, states: u64, cpu: Lh5801) -> usize
    ensures { Printed buffer.old (line_of number steps states cpu) buffer.new result }
{
    let mut text = LineText { buffer, len: 0 };
    text.counts(number, steps, states);
    text.registers(cpu);
    text.counters(cpu);
    text.len
}

/// The line of a campaign file that is turned down: likewise.
#[tactic(auto, using(std::proofs::Common::append_assoc), unfolding(crate::specs::Line::refusal_line_of, crate::specs::Code::LineParts::written))]
pub fn refusal_line(buffer: &mut [u8; 200], number: u8, offset: u64) -> usize
    ensures { Printed buffer.old (refusal_line_of number offset) buffer.new result }
{
    let mut text = LineText { buffer, len: 0 };
    text.decimal(u64::from(number), SPACE);
    text.decimal(offset, NEWLINE);
    text.len
}
