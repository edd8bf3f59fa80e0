//! Operations on an operand's place: A with a byte, stores, memory bytes with an immediate, moves of digits, halves.
ghost use Rattle.std.specs.Prelude.{◌≡◌, if◌then◌else◌};
ghost use Rattle.pages.specs.Contract.{Changes, Reads};
ghost use Rattle.execution.specs.Instructions.{operated, alu_of, store_of, sta_of, changed_of, memory_of, bii_of, drr_of, drl_of, load_of, compare_of, inc_half_of, dec_half_of};
ghost use Rattle.arithmetic.specs.Sums.{inc_of, dec_of};

use crate::instructions::{Change, Operation};
use crate::places::{self, Half, Page, Place};
use arithmetic::Sum;
use arithmetic::record::Lh5801;
use pages::{Memory, View};

impl Operation {
    fn operate(self, cpu: Lh5801, v: u8) -> Lh5801
        ensures { result ≡ operated cpu self v }
    {
        match self {
            Operation::Sbc => arithmetic::sbc(cpu, v),
            Operation::Adc => arithmetic::adc(cpu, v),
            Operation::Lda => arithmetic::lda(cpu, v),
            Operation::Cpa => arithmetic::cpa(cpu, cpu.a, v),
            Operation::And => arithmetic::and(cpu, v),
            Operation::Ora => arithmetic::ora(cpu, v),
            Operation::Dcs => arithmetic::dcs(cpu, v),
            Operation::Dca => arithmetic::dca(cpu, v),
            Operation::Eor => arithmetic::eor(cpu, v),
            Operation::Bit => arithmetic::bit(cpu, cpu.a, v),
        }
    }
}

/// A with the byte of a place.
pub fn alu(cpu: Lh5801, view: View, o: Operation, place: Place) -> Lh5801
    ensures { Reads (alu_of cpu o place) view result }
{
    let f = places::operand(cpu, view, place);
    o.operate(cpu.with_p(f.p), f.value)
}

// A to memory.
fn store(cpu: Lh5801, memory: &mut Memory, place: Place) -> Lh5801
    ensures { Changes (store_of cpu place) memory result }
{
    let l = places::locate(cpu, memory.view(), place);
    memory.write_byte(l.value, cpu.a);
    cpu.with_p(l.p)
}

/// A to a half or to memory.
#[tactic(auto, using(pages::proofs::Does::does_done), unfolding(crate::specs::Instructions::sta_of))]
pub fn sta(cpu: Lh5801, memory: &mut Memory, place: Place) -> Lh5801
    ensures { Changes (sta_of cpu place) memory result }
{
    match place {
        Place::InHalf(h) => places::set_half(cpu, h, cpu.a),
        _ => store(cpu, memory, place),
    }
}

impl Change {
    /// A memory byte with an immediate, and T.
    pub fn changed(self, t: u8, byte: u8, v: u8) -> Sum<u8>
        ensures { result ≡ changed_of t self byte v }
    {
        match self {
            Change::Ani => Sum {
                value: byte & v,
                t: arithmetic::check_z(t, byte & v),
            },
            Change::Ori => Sum {
                value: byte | v,
                t: arithmetic::check_z(t, byte | v),
            },
            Change::Adi => arithmetic::add_generic(t, byte, v, false),
        }
    }
}

/// and_mem, ora_mem and add_mem: address, immediate, read, write.
pub fn memory(cpu: Lh5801, memory: &mut Memory, o: Change, place: Place) -> Lh5801
    ensures { Changes (memory_of cpu o place) memory result }
{
    let l = places::locate(cpu, memory.view(), place);
    let imm = memory.view().cpu_readop(l.p);
    let b = memory.view().read_byte(l.value);
    let s = o.changed(cpu.t, b, imm.value);
    memory.write_byte(l.value, s.value);
    cpu.with_p(imm.p).with_t(s.t)
}

/// The memory byte is read before the immediate.
pub fn bii(cpu: Lh5801, view: View, place: Place) -> Lh5801
    ensures { Reads (bii_of cpu place) view result }
{
    let l = places::locate(cpu, view, place);
    let b = view.read_byte(l.value);
    let imm = view.cpu_readop(l.p);
    arithmetic::bit(cpu.with_p(imm.p), b, imm.value)
}

/// DRR and DRL: the digits of A and of the byte that X points to.
pub fn rotate<const RIGHT: bool>(cpu: Lh5801, memory: &mut Memory, page: Page) -> Lh5801
    ensures { Changes (if RIGHT then drr_of cpu page else drl_of cpu page) memory result }
{
    let at = places::paged(cpu.x, page);
    let b = memory.view().read_byte(at);
    let moved = if RIGHT {
        arithmetic::drr(cpu.a, b)
    } else {
        arithmetic::drl(cpu.a, b)
    };
    memory.write_byte(at, moved.byte);
    cpu.with_a(moved.a)
}

/// LDI: a half from the code.
pub fn load(cpu: Lh5801, view: View, h: Half) -> Lh5801
    ensures { Reads (load_of cpu h) view result }
{
    let f = view.cpu_readop(cpu.p);
    places::set_half(cpu.with_p(f.p), h, f.value)
}

/// CPI: a half against the code.
pub fn compare(cpu: Lh5801, view: View, h: Half) -> Lh5801
    ensures { Reads (compare_of cpu h) view result }
{
    let f = view.cpu_readop(cpu.p);
    let left = places::get_half(cpu, h);
    arithmetic::cpa(cpu.with_p(f.p), left, f.value)
}

/// One more or one less.
pub fn counted<const UP: bool>(t: u8, value: u8) -> Sum<u8>
    ensures { result ≡ (if UP then inc_of t value else dec_of t value) }
{
    if UP {
        arithmetic::inc(t, value)
    } else {
        arithmetic::dec(t, value)
    }
}

/// INC and DEC of a half.
#[tactic(auto, unfolding(crate::specs::Instructions::inc_half_of, crate::specs::Instructions::dec_half_of))]
pub fn count_half<const UP: bool>(cpu: Lh5801, h: Half) -> Lh5801
    ensures { result ≡ (if UP then inc_half_of cpu h else dec_half_of cpu h) }
{
    let s = counted::<UP>(cpu.t, places::get_half(cpu, h));
    places::set_half(cpu.with_t(s.t), h, s.value)
}
