//! A record as twelve numbers, and back: A, T, X, Y, U, S, P, TM, flags, timer states, previous states and ticks.
ghost use Rattle.std.specs.Prelude.{◌≡◌, ◌≤◌, length, take};
ghost use Rattle.run.specs.RecordNumbers.{flags_of, record_numbers, record_of, AllWithin, widths};

use arithmetic::record::Lh5801;

/// The flags as one number. Its bits: halted, PU, PV, BF, DISP, IR0, IR1, IR2, timer reached.
#[tactic(auto, using(crate::proofs::RecordNumbers::from_bool_bit, crate::proofs::RecordNumbers::flags_small), unfolding(crate::specs::RecordNumbers::flags_of))]
pub fn flags_of(cpu: Lh5801) -> u16
    ensures { (result ≡ flags_of cpu) × (result ≤ 511) }
{
    let low = u16::from(cpu.is_halted)
        + 2 * u16::from(cpu.pu)
        + 4 * u16::from(cpu.pv)
        + 8 * u16::from(cpu.bf);
    let middle = low + 16 * u16::from(cpu.disp) + 32 * u16::from(cpu.ir0) + 64 * u16::from(cpu.ir1);
    middle + 128 * u16::from(cpu.ir2) + 256 * u16::from(cpu.is_timer_reached)
}

/// The numbers of a record, each within its field's width.
pub fn from_record(cpu: Lh5801) -> [u64; 12]
    ensures { (result ≡ record_numbers cpu) × AllWithin widths (record_numbers cpu) }
{
    [
        u64::from(cpu.a),
        u64::from(cpu.t),
        u64::from(cpu.x),
        u64::from(cpu.y),
        u64::from(cpu.u),
        u64::from(cpu.s),
        u64::from(cpu.p),
        u64::from(cpu.tm),
        u64::from(flags_of(cpu)),
        cpu.timer_state,
        cpu.step_previous_state,
        cpu.ticks,
    ]
}

/// The record of the first twelve numbers, in the order of the file and of C's words. `as`: each is within its field. The counters have 64 bits, as the numbers do, and of the flags nine bits are looked at.
#[tactic(auto, using(crate::proofs::RecordNumbers::within_at), unfolding(crate::specs::RecordNumbers::record_of))]
pub fn record_of(numbers: &[u64]) -> Lh5801
    requires { (12 ≤ length numbers.now) × AllWithin (take 8 widths) numbers.now }
    ensures { result ≡ record_of numbers.now }
{
    let flags = numbers[8];
    Lh5801 {
        a: numbers[0] as u8,
        t: numbers[1] as u8,
        x: numbers[2] as u16,
        y: numbers[3] as u16,
        u: numbers[4] as u16,
        s: numbers[5] as u16,
        p: numbers[6] as u16,
        is_halted: flags % 2 == 1,
        pu: flags / 2 % 2 == 1,
        pv: flags / 4 % 2 == 1,
        bf: flags / 8 % 2 == 1,
        disp: flags / 16 % 2 == 1,
        tm: numbers[7] as u16,
        ir0: flags / 32 % 2 == 1,
        ir1: flags / 64 % 2 == 1,
        ir2: flags / 128 % 2 == 1,
        is_timer_reached: flags / 256 % 2 == 1,
        timer_state: numbers[9],
        step_previous_state: numbers[10],
        ticks: numbers[11],
    }
}
