//! Register pairs, transfers through them, the stack's instructions, A alone, lines and flags.
ghost use Rattle.std.specs.Prelude.{◌≡◌, if◌then◌else◌};
ghost use Rattle.pages.specs.Contract.{Changes, Reads};
ghost use Rattle.arithmetic.specs.Sums.{inc_of, dec_of, with_sum};
ghost use Rattle.execution.specs.Instructions.{inc_word_of, dec_word_of, sin_of, sde_of, lin_of, lde_of, load_sOf, tin_of, cin_of, on_aOf, signal_of, pop_to_of, push_from_of, to_xOf, from_xOf, adr_in_of, cdv_of, drop_word_of};

use crate::instructions::{Accumulator, Signal, Word};
use crate::places::Register;
use crate::{operations, places};
use arithmetic::record::Lh5801;
use pages::{Memory, View};

/// A pair, up or down by one.
#[tactic(auto, unfolding(crate::specs::Instructions::inc_word_of, crate::specs::Instructions::dec_word_of))]
pub fn count_word<const UP: bool>(cpu: Lh5801, r: Register) -> Lh5801
    ensures { result ≡ (if UP then inc_word_of cpu r else dec_word_of cpu r) }
{
    let w = places::get_word(cpu, r);
    let next = if UP {
        w.wrapping_add(1)
    } else {
        w.wrapping_sub(1)
    };
    places::set_word(cpu, r, next)
}

/// SIN and SDE: A to the byte that a pair points to, and the pair up or down.
pub fn store_and_count<const UP: bool>(cpu: Lh5801, memory: &mut Memory, r: Register) -> Lh5801
    ensures { Changes (if UP then sin_of cpu r else sde_of cpu r) memory result }
{
    let w = places::get_word(cpu, r);
    memory.write_byte(u32::from(w), cpu.a);
    count_word::<UP>(cpu, r)
}

/// LIN and LDE: A from the byte that a pair points to, and the pair up or down.
pub fn load_and_count<const UP: bool>(cpu: Lh5801, view: View, r: Register) -> Lh5801
    ensures { Reads (if UP then lin_of cpu r else lde_of cpu r) view result }
{
    let w = places::get_word(cpu, r);
    let b = view.read_byte(u32::from(w));
    count_word::<UP>(arithmetic::lda(cpu, b), r)
}

/// S from the code.
pub fn load_s(cpu: Lh5801, view: View) -> Lh5801
    ensures { Reads (load_sOf cpu) view result }
{
    let w = view.readop_word(cpu.p);
    cpu.with_s(w.value).with_p(w.p)
}

/// The byte at X to Y, and both move up.
pub fn tin(cpu: Lh5801, memory: &mut Memory) -> Lh5801
    ensures { Changes (tin_of cpu) memory result }
{
    let b = memory.view().read_byte(u32::from(cpu.x));
    memory.write_byte(u32::from(cpu.y), b);
    let x = cpu.x.wrapping_add(1);
    let y = cpu.y.wrapping_add(1);
    cpu.with_x(x).with_y(y)
}

/// A against the byte at X, and X moves up.
pub fn cin(cpu: Lh5801, view: View) -> Lh5801
    ensures { Reads (cin_of cpu) view result }
{
    let b = view.read_byte(u32::from(cpu.x));
    let x = cpu.x.wrapping_add(1);
    arithmetic::cpa(cpu.with_x(x), cpu.a, b)
}

// INC and DEC of A.
fn count_a<const UP: bool>(cpu: Lh5801) -> Lh5801
    ensures { result ≡ with_sum cpu (if UP then inc_of cpu.t cpu.a else dec_of cpu.t cpu.a) }
{
    let s = operations::counted::<UP>(cpu.t, cpu.a);
    cpu.with_a(s.value).with_t(s.t)
}

/// On A alone; keyboard is the input port's byte.
pub fn accumulator(cpu: Lh5801, i: Accumulator, keyboard: u8) -> Lh5801
    ensures { result ≡ on_aOf cpu i keyboard }
{
    match i {
        Accumulator::IncA => count_a::<true>(cpu),
        Accumulator::DecA => count_a::<false>(cpu),
        Accumulator::Ror => arithmetic::ror(cpu),
        Accumulator::Shr => arithmetic::shr(cpu),
        Accumulator::Shl => arithmetic::shl(cpu),
        Accumulator::Rol => arithmetic::rol(cpu),
        Accumulator::Aex => cpu.with_a(arithmetic::aex(cpu.a)),
        Accumulator::Tta => arithmetic::tta(cpu),
        Accumulator::Att => cpu.with_t(cpu.a & 0x1f),
        Accumulator::Ita => arithmetic::lda(cpu, keyboard),
        Accumulator::Am0 => cpu.with_tm(u16::from(cpu.a)),
        Accumulator::Am1 => cpu.with_tm(u16::from(cpu.a) + 256),
    }
}

/// Lines and flags.
pub fn signal(cpu: Lh5801, s: Signal, value: bool) -> Lh5801
    ensures { result ≡ signal_of cpu s value }
{
    match s {
        Signal::Pu => cpu.with_pu(value),
        Signal::Pv => cpu.with_pv(value),
        Signal::Disp => cpu.with_disp(value),
        Signal::CarryFlag => cpu.with_t(arithmetic::set_flag(cpu.t, arithmetic::CF, value)),
        Signal::InterruptEnable => cpu.with_t(arithmetic::set_flag(cpu.t, arithmetic::IE, value)),
    }
}

/// A pair from the stack.
pub fn pop_to(cpu: Lh5801, view: View, r: Register) -> Lh5801
    ensures { Reads (pop_to_of cpu r) view result }
{
    let w = pages::pop_word(cpu.s, view);
    places::set_word(cpu.with_s(w.s), r, w.value)
}

/// A pair to the stack.
#[tactic(auto, unfolding(crate::specs::Instructions::push_from_of))]
pub fn push_from(cpu: Lh5801, memory: &mut Memory, r: Register) -> Lh5801
    ensures { Changes (push_from_of cpu r) memory result }
{
    let w = places::get_word(cpu, r);
    pages::push_word(cpu, memory, w)
}

/// X from X, Y, U, S or P: X itself in FD 08, which changes nothing.
pub fn to_x(cpu: Lh5801, w: Word) -> Lh5801
    ensures { result ≡ to_xOf cpu w }
{
    match w {
        Word::Of(r) => cpu.with_x(places::get_word(cpu, r)),
        Word::S => cpu.with_x(cpu.s),
        Word::P => cpu.with_x(cpu.p),
    }
}

/// X to X, Y, U, S or P: X itself in FD 4A, which changes nothing.
pub fn from_x(cpu: Lh5801, w: Word) -> Lh5801
    ensures { result ≡ from_xOf cpu w }
{
    match w {
        Word::Of(r) => places::set_word(cpu, r, cpu.x),
        Word::S => cpu.with_s(cpu.x),
        Word::P => cpu.with_p(cpu.x),
    }
}

/// A pair and A, with T as it was.
#[tactic(auto, unfolding(crate::specs::Instructions::adr_in_of))]
pub fn adr(cpu: Lh5801, r: Register) -> Lh5801
    ensures { result ≡ adr_in_of cpu r }
{
    let s = arithmetic::adr(cpu.t, places::get_word(cpu, r), cpu.a);
    places::set_word(cpu.with_t(s.t), r, s.value)
}

/// The divider starts again: as the 8 states are counted after this, previous takes them too.
#[tactic(auto, unfolding(crate::specs::Instructions::cdv_of))]
pub fn cdv(cpu: Lh5801) -> Lh5801
    ensures { result ≡ cdv_of cpu }
{
    let now = cpu.timer_state.wrapping_add(8);
    cpu.with_step_previous_state(now)
}

/// A word of the stack passed over.
#[tactic(auto, unfolding(crate::specs::Instructions::drop_word_of))]
pub fn drop_word(cpu: Lh5801) -> Lh5801
    ensures { result ≡ drop_word_of cpu }
{
    let s = cpu.s.wrapping_add(2);
    cpu.with_s(s)
}
