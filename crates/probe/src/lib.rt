//! C functions through which oracle/ runs the arithmetic against the original, on every input, and campaign files against its own reader.
#![tactic(auto)]

ghost use Rattle.std.specs.Prelude.{◌≡◌};
ghost use Rattle.run.specs.Line.{Printed};
ghost use Rattle.run.specs.Report.{report_of};
ghost use Rattle.probe.specs.Answers.{blank_of, packed, of_record, of_sum, of_moved, arithmetic_answer, add_answer, adr_answer};

use arithmetic::record::Lh5801;
use arithmetic::{Moved, Sum};

// A record with this A and T, and nothing else set.
#[tactic(auto, unfolding(crate::specs::Answers::blank_of))]
fn blank(a: u8, t: u8) -> Lh5801
    ensures { result ≡ blank_of a t }
{
    Lh5801 {
        a,
        t,
        ..Lh5801::default()
    }
}

// A byte, A and T in one number.
fn pack(byte: u8, a: u8, t: u8) -> u32
    ensures { result ≡ packed byte a t }
{
    u32::from_be_bytes([0, byte, a, t])
}

fn of_record(cpu: Lh5801) -> u32
    ensures { result ≡ of_record cpu }
{
    pack(0, cpu.a, cpu.t)
}

fn of_sum(s: Sum<u8>) -> u32
    ensures { result ≡ of_sum 0 s }
{
    pack(0, s.value, s.t)
}

fn of_moved(t: u8, m: Moved) -> u32
    ensures { result ≡ of_moved t m }
{
    pack(m.byte, m.a, t)
}

/// The function of a number, as C has no enum of ours, on A, T and an operand: the byte stored (DRL and DRR; else 0), A and T.
#[unsafe(no_mangle)]
#[tactic(auto, unfolding(crate::specs::Answers::arithmetic_answer))]
pub extern "C" fn probe_arithmetic(function: u8, a: u8, t: u8, operand: u8) -> u32
    ensures { result ≡ arithmetic_answer function a t operand }
{
    let cpu = blank(a, t);
    match function {
        0 => of_record(arithmetic::adc(cpu, operand)),
        1 => of_record(arithmetic::sbc(cpu, operand)),
        2 => of_record(arithmetic::cpa(cpu, a, operand)),
        3 => of_record(arithmetic::dca(cpu, operand)),
        4 => of_record(arithmetic::dcs(cpu, operand)),
        5 => of_record(arithmetic::and(cpu, operand)),
        6 => of_record(arithmetic::ora(cpu, operand)),
        7 => of_record(arithmetic::eor(cpu, operand)),
        8 => of_record(arithmetic::bit(cpu, a, operand)),
        9 => of_record(arithmetic::lda(cpu, operand)),
        10 => of_sum(arithmetic::inc(t, a)),
        11 => of_sum(arithmetic::dec(t, a)),
        12 => of_record(arithmetic::rol(cpu)),
        13 => of_record(arithmetic::ror(cpu)),
        14 => of_record(arithmetic::shl(cpu)),
        15 => of_record(arithmetic::shr(cpu)),
        16 => pack(0, arithmetic::aex(a), t),
        17 => of_record(arithmetic::tta(cpu)),
        18 => of_moved(t, arithmetic::drl(a, operand)),
        19 => of_moved(t, arithmetic::drr(a, operand)),
        20 => pack(0, a, arithmetic::check_z(t, operand)),
        _ => 0,
    }
}

/// add_generic or decimaladd_generic: the result and T.
#[unsafe(no_mangle)]
pub extern "C" fn probe_add(t: u8, left: u8, right: u8, carry: bool, decimal: bool) -> u32
    ensures { result ≡ add_answer decimal t left right carry }
{
    if decimal {
        of_sum(arithmetic::decimaladd_generic(t, left, right, carry))
    } else {
        of_sum(arithmetic::add_generic(t, left, right, carry))
    }
}

/// ADR's sum and T.
#[unsafe(no_mangle)]
pub extern "C" fn probe_adr(t: u8, reg: u16, a: u8) -> u32
    ensures { result ≡ adr_answer t reg a }
{
    let s = arithmetic::adr(t, reg, a);
    u32::from(s.value) * 256 + u32::from(s.t)
}

/// The line of a campaign file, as the program campaign prints it, at the start of a buffer; its length is returned.
/// In C: probe_report(bytes, length, out), with 200 bytes at out.
#[unsafe(no_mangle)]
pub extern "C" fn probe_report(bytes: &[u8], out: &mut [u8; 200]) -> usize
    ensures { Printed out.old (report_of bytes.now) out.new result }
{
    run::report::report(bytes, out)
}
