//! Flags and arithmetic of the LH5801.
#![tactic(auto)]

ghost use Rattle.std.specs.Prelude.{◌≡◌};
ghost use Rattle.arithmetic.specs.Flags.{has_flag, set_flag, check_z, with_flags};
ghost use Rattle.arithmetic.specs.Sums.{overflow_of, add_of, with_sum, adc_of, sbc_of, cpa_of, inc_of, dec_of, adr_of};
ghost use Rattle.arithmetic.specs.Decimal.{adjust, decimal_sum_of, dca_of, dcs_of};
ghost use Rattle.arithmetic.specs.Logic.{lda_of, and_of, ora_of, eor_of, bit_test_of, tta_of};
ghost use Rattle.arithmetic.specs.Shifts.{left_of, right_overflow_of, right_of, rol_of, shl_of, ror_of, shr_of, looped_of, aex_of, drl_moved, drr_moved};

use crate::record::Lh5801;

pub mod record;

/// The flags of T as masks, and no enum: get_flag and set_flag take any mask.
pub const CF: u8 = 0x01;

pub const IE: u8 = 0x02;

pub const ZF: u8 = 0x04;

pub const VF: u8 = 0x08;

pub const HF: u8 = 0x10;

/// A result of 8 or 16 bits with the T that goes with it.
#[derive(Clone, Copy, Debug, PartialEq, Eq)]
pub struct Sum<T> {
    pub value: T,
    pub t: u8,
}

/// A and the memory byte after a move of digits.
#[derive(Clone, Copy, Debug, PartialEq, Eq)]
pub struct Moved {
    pub a: u8,
    pub byte: u8,
}

/// U after LOP has counted UL down, and whether it branches: no Option, since U changes either way.
#[derive(Clone, Copy, Debug, PartialEq, Eq)]
pub struct Looped {
    pub u: u16,
    pub again: bool,
}

pub fn get_flag(t: u8, flag: u8) -> bool
    ensures { result ≡ has_flag t flag }
{
    t & flag != 0
}

/// T with the bits of a flag set or cleared.
pub fn set_flag(t: u8, flag: u8, value: bool) -> u8
    ensures { result ≡ set_flag t flag value }
{
    if value { t | flag } else { t & !flag }
}

/// T with Z from a value.
pub fn check_z(t: u8, value: u8) -> u8
    ensures { result ≡ check_z t value }
{
    set_flag(t, ZF, value == 0)
}

// T with C, Z, V and H as given; its upper three bits and IE are kept. A sum as the definition's, so that no law of bits is needed.
#[tactic(auto, unfolding(crate::specs::Flags::with_flags))]
fn set_flags(t: u8, c: bool, z: bool, v: bool, h: bool) -> u8
    ensures { result ≡ with_flags t c z v h }
{
    t / 32 * 32
        + u8::from(h) * HF
        + u8::from(v) * VF
        + u8::from(z) * ZF
        + t / 2 % 2 * IE
        + u8::from(c) * CF
}

// V of a sum: both operands differ from the result in bit 7. By `^` and `&`, since two `!=` take more machine instructions.
fn overflow(left: u8, right: u8, res: u8) -> bool
    ensures { result ≡ overflow_of left right res }
{
    (left / 128 ^ res / 128) & (right / 128 ^ res / 128) != 0
}

#[tactic(auto, unfolding(crate::specs::Sums::add_of))]
pub fn add_generic(t: u8, left: u8, right: u8, carry: bool) -> Sum<u8>
    ensures { result ≡ add_of t left right carry }
{
    let c = u8::from(carry);
    let sum = u16::from(left) + u16::from(right) + u16::from(c);
    let low = (sum % 256) as u8;
    let half = left % 16 + right % 16 + c;
    let v = overflow(left, right, low);
    Sum {
        value: low,
        t: set_flags(t, sum & 0x100 != 0, low == 0, v, half & 0x10 != 0),
    }
}

// A and T from a sum. Below, each instruction is a function of its name, over what it shares with others.
fn with_sum(cpu: Lh5801, s: Sum<u8>) -> Lh5801
    ensures { result ≡ with_sum cpu s }
{
    cpu.with_a(s.value).with_t(s.t)
}

#[tactic(auto, unfolding(crate::specs::Sums::adc_of))]
pub fn adc(cpu: Lh5801, operand: u8) -> Lh5801
    ensures { result ≡ adc_of cpu operand }
{
    let c = get_flag(cpu.t, CF);
    let s = add_generic(cpu.t, cpu.a, operand, c);
    with_sum(cpu, s)
}

#[tactic(auto, unfolding(crate::specs::Sums::sbc_of))]
pub fn sbc(cpu: Lh5801, operand: u8) -> Lh5801
    ensures { result ≡ sbc_of cpu operand }
{
    let c = get_flag(cpu.t, CF);
    let s = add_generic(cpu.t, cpu.a, !operand, c);
    with_sum(cpu, s)
}

/// Only the flags of a - b.
#[tactic(auto, unfolding(crate::specs::Sums::cpa_of))]
pub fn cpa(cpu: Lh5801, a: u8, b: u8) -> Lh5801
    ensures { result ≡ cpa_of cpu a b }
{
    let s = add_generic(cpu.t, a, !b, true);
    cpu.with_t(s.t)
}

// What a decimal result gains.
fn adjustment(carry: bool, half: bool) -> u8
    ensures { result ≡ adjust carry half }
{
    if carry {
        if half { 0 } else { 0xfa }
    } else {
        if half { 0xa0 } else { 0x9a }
    }
}

/// The flags are those of the sum before the adjustment.
#[tactic(auto, unfolding(crate::specs::Decimal::decimal_sum_of))]
pub fn decimaladd_generic(t: u8, left: u8, right: u8, carry: bool) -> Sum<u8>
    ensures { result ≡ decimal_sum_of t left right carry }
{
    let s = add_generic(t, left, right, carry);
    let c = get_flag(s.t, CF);
    let h = get_flag(s.t, HF);
    let value = s.value.wrapping_add(adjustment(c, h));
    Sum { value, ..s }
}

#[tactic(auto, unfolding(crate::specs::Decimal::dca_of, crate::specs::Decimal::dca_sum))]
pub fn dca(cpu: Lh5801, operand: u8) -> Lh5801
    ensures { result ≡ dca_of cpu operand }
{
    let left = cpu.a.wrapping_add(0x66);
    let c = get_flag(cpu.t, CF);
    let s = decimaladd_generic(cpu.t, left, operand, c);
    with_sum(cpu, s)
}

#[tactic(auto, unfolding(crate::specs::Decimal::dcs_of, crate::specs::Decimal::dcs_sum))]
pub fn dcs(cpu: Lh5801, operand: u8) -> Lh5801
    ensures { result ≡ dcs_of cpu operand }
{
    let c = get_flag(cpu.t, CF);
    let s = decimaladd_generic(cpu.t, cpu.a, !operand, c);
    with_sum(cpu, s)
}

/// A loaded, and Z from it.
#[tactic(auto, unfolding(crate::specs::Logic::lda_of))]
pub fn lda(cpu: Lh5801, operand: u8) -> Lh5801
    ensures { result ≡ lda_of cpu operand }
{
    let t = check_z(cpu.t, operand);
    cpu.with_a(operand).with_t(t)
}

#[tactic(auto, unfolding(crate::specs::Logic::and_of))]
pub fn and(cpu: Lh5801, operand: u8) -> Lh5801
    ensures { result ≡ and_of cpu operand }
{
    lda(cpu, cpu.a & operand)
}

#[tactic(auto, unfolding(crate::specs::Logic::ora_of))]
pub fn ora(cpu: Lh5801, operand: u8) -> Lh5801
    ensures { result ≡ ora_of cpu operand }
{
    lda(cpu, cpu.a | operand)
}

#[tactic(auto, unfolding(crate::specs::Logic::eor_of))]
pub fn eor(cpu: Lh5801, operand: u8) -> Lh5801
    ensures { result ≡ eor_of cpu operand }
{
    lda(cpu, cpu.a ^ operand)
}

/// Z from the common bits of two bytes.
#[tactic(auto, unfolding(crate::specs::Logic::bit_test_of))]
pub fn bit(cpu: Lh5801, a: u8, b: u8) -> Lh5801
    ensures { result ≡ bit_test_of cpu a b }
{
    let t = check_z(cpu.t, a & b);
    cpu.with_t(t)
}

/// T to A with Z from it, and Z once more from the T so changed.
#[tactic(auto, unfolding(crate::specs::Logic::tta_of))]
pub fn tta(cpu: Lh5801) -> Lh5801
    ensures { result ≡ tta_of cpu }
{
    let once = lda(cpu, cpu.t);
    let t = check_z(once.t, once.t);
    once.with_t(t)
}

pub fn inc(t: u8, value: u8) -> Sum<u8>
    ensures { result ≡ inc_of t value }
{
    add_generic(t, value, 1, false)
}

pub fn dec(t: u8, value: u8) -> Sum<u8>
    ensures { result ≡ dec_of t value }
{
    add_generic(t, value, 0xff, false)
}

/// R + A, and T as it was. Document 01's two sums of bytes are this one of 16 bits, by adr_sum.
#[tactic(auto, using(crate::proofs::Flags::adr_sum), unfolding(crate::specs::Sums::adr_of))]
pub fn adr(t: u8, reg: u16, a: u8) -> Sum<u16>
    ensures { result ≡ adr_of t reg a }
{
    let value = reg.wrapping_add(u16::from(a));
    Sum { value, t }
}

// A one place to the left, with C, Z, V and H.
#[tactic(auto, unfolding(crate::specs::Shifts::left_of))]
fn shifted_left(cpu: Lh5801, low: bool) -> Lh5801
    ensures { result ≡ left_of cpu low }
{
    let l = cpu.a;
    let value = l % 128 * 2 + u8::from(low);
    let v = (64 <= l) & (l < 192);
    let t = set_flags(cpu.t, l & 0x80 != 0, value == 0, v, value & 0x10 != 0);
    cpu.with_a(value).with_t(t)
}

// V of a shift to the right, from the two low bits before and after.
fn right_overflow(before: u8, after: u8) -> bool
    ensures { result ≡ right_overflow_of before after }
{
    let first = (before & 0x01 != 0) & (after & 0x02 != 0);
    let second = (before & 0x02 != 0) & (after & 0x01 != 0);
    first | second
}

// A one place to the right, with C, Z, V and H.
#[tactic(auto, unfolding(crate::specs::Shifts::right_of))]
fn shifted_right(cpu: Lh5801, high: bool) -> Lh5801
    ensures { result ≡ right_of cpu high }
{
    let l = cpu.a;
    let value = l / 2 + u8::from(high) * 128;
    let v = right_overflow(l, value);
    let t = set_flags(cpu.t, l & 0x01 != 0, value == 0, v, value & 0x08 != 0);
    cpu.with_a(value).with_t(t)
}

pub fn rol(cpu: Lh5801) -> Lh5801
    ensures { result ≡ rol_of cpu }
{
    let c = get_flag(cpu.t, CF);
    shifted_left(cpu, c)
}

pub fn shl(cpu: Lh5801) -> Lh5801
    ensures { result ≡ shl_of cpu }
{
    shifted_left(cpu, false)
}

pub fn ror(cpu: Lh5801) -> Lh5801
    ensures { result ≡ ror_of cpu }
{
    let c = get_flag(cpu.t, CF);
    shifted_right(cpu, c)
}

pub fn shr(cpu: Lh5801) -> Lh5801
    ensures { result ≡ shr_of cpu }
{
    shifted_right(cpu, false)
}

/// UL is tested before it is counted down; it wraps, and UH stays.
pub fn lop(u: u16) -> Looped
    ensures { result ≡ looped_of u }
{
    if u % 256 == 0 {
        Looped {
            u: u + 255,
            again: false,
        }
    } else {
        Looped {
            u: u - 1,
            again: true,
        }
    }
}

/// The two nibbles exchanged.
pub fn aex(a: u8) -> u8
    ensures { result ≡ aex_of a }
{
    a % 16 * 16 + a / 16
}

/// A and the memory byte after DRL.
pub fn drl(a: u8, byte: u8) -> Moved
    ensures { result ≡ drl_moved a byte }
{
    Moved {
        a: byte,
        byte: byte % 16 * 16 + a / 16,
    }
}

/// A and the memory byte after DRR.
pub fn drr(a: u8, byte: u8) -> Moved
    ensures { result ≡ drr_moved a byte }
{
    Moved {
        a: byte,
        byte: a % 16 * 16 + byte / 16,
    }
}
