//! Branches, LOP, vectors, jumps and returns.
ghost use Rattle.std.specs.Prelude.{◌≡◌, ◌+◌, ◌-◌, ◌%◌};
ghost use Rattle.pages.specs.Contract.{Changes, Reads};
ghost use Rattle.execution.specs.Instructions.{holds_of, branched_of, branch_of, lop_of, vector_of, vector_if_of, jmp_of, sjp_of, rtn_of, rti_of};

use crate::instructions::{Condition, Direction};
use arithmetic::record::Lh5801;
use pages::{Memory, View};

impl Condition {
    pub fn holds(self, t: u8) -> bool
        ensures { result ≡ holds_of t self }
    {
        match self {
            Condition::NoCarry => !arithmetic::get_flag(t, arithmetic::CF),
            Condition::Carry => arithmetic::get_flag(t, arithmetic::CF),
            Condition::NoHalfCarry => !arithmetic::get_flag(t, arithmetic::HF),
            Condition::HalfCarry => arithmetic::get_flag(t, arithmetic::HF),
            Condition::NotZero => !arithmetic::get_flag(t, arithmetic::ZF),
            Condition::Zero => arithmetic::get_flag(t, arithmetic::ZF),
            Condition::NoOverflow => !arithmetic::get_flag(t, arithmetic::VF),
            Condition::Overflow => arithmetic::get_flag(t, arithmetic::VF),
            Condition::Always => true,
        }
    }
}

// A taken branch; p is the address after the operand.
fn branched(cpu: Lh5801, p: u16, offset: u8, direction: Direction) -> Lh5801
    ensures { result ≡ branched_of cpu p offset direction }
{
    let (to, states) = match direction {
        Direction::Forward => (p.wrapping_add(u16::from(offset)), 2),
        Direction::Backward => (p.wrapping_sub(u16::from(offset)), 3),
    };
    pages::add_state(cpu.with_p(to), states)
}

pub fn branch(cpu: Lh5801, view: View, c: Condition, direction: Direction) -> Lh5801
    ensures { Reads (branch_of cpu c direction) view result }
{
    let f = view.cpu_readop(cpu.p);
    if c.holds(cpu.t) {
        branched(cpu, f.p, f.value, direction)
    } else {
        cpu.with_p(f.p)
    }
}

/// UL is tested before it is counted down.
pub fn lop(cpu: Lh5801, view: View) -> Lh5801
    ensures { Reads (lop_of cpu) view result }
{
    let f = view.cpu_readop(cpu.p);
    let l = arithmetic::lop(cpu.u);
    let counted = cpu.with_u(l.u);
    if l.again {
        branched(counted, f.p, f.value, Direction::Backward)
    } else {
        counted.with_p(f.p)
    }
}

/// A vector that is taken. Always inline: see `execute`.
#[inline(always)]
pub fn vector(cpu: Lh5801, memory: &mut Memory, nr: u8) -> Lh5801
    ensures { Changes (vector_of cpu nr) memory result }
{
    let pushed = pages::push_word(cpu, memory, cpu.p);
    let at = memory.view().get_mem16(0xff00 + u16::from(nr));
    let t = arithmetic::set_flag(cpu.t, arithmetic::ZF, false);
    pages::add_state(pushed.with_p(at).with_t(t), 13)
}

pub fn vector_if(cpu: Lh5801, memory: &mut Memory, c: Condition) -> Lh5801
    ensures { Changes (vector_if_of cpu c) memory result }
{
    let f = memory.view().cpu_readop(cpu.p);
    let next = cpu.with_p(f.p);
    if c.holds(cpu.t) {
        vector(next, memory, f.value)
    } else {
        next
    }
}

pub fn jmp(cpu: Lh5801, view: View) -> Lh5801
    ensures { Reads (jmp_of cpu) view result }
{
    let w = view.readop_word(cpu.p);
    cpu.with_p(w.value)
}

pub fn sjp(cpu: Lh5801, memory: &mut Memory) -> Lh5801
    ensures { Changes (sjp_of cpu) memory result }
{
    let w = memory.view().readop_word(cpu.p);
    pages::push_word(cpu, memory, w.p).with_p(w.value)
}

pub fn rtn(cpu: Lh5801, view: View) -> Lh5801
    ensures { Reads (rtn_of cpu) view result }
{
    let w = pages::pop_word(cpu.s, view);
    cpu.with_p(w.value).with_s(w.s)
}

/// P and then the whole of T.
pub fn rti(cpu: Lh5801, view: View) -> Lh5801
    ensures { Reads (rti_of cpu) view result }
{
    let w = pages::pop_word(cpu.s, view);
    let s = w.s.wrapping_add(1);
    let t = view.read_byte(u32::from(s));
    cpu.with_p(w.value).with_s(s).with_t(t)
}
