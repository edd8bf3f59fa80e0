//! The record of the LH5801: the fields of the Rust's `Lh5801` that document 01 keeps, by value.
#![tactic(auto, unfolding(crate::specs::Record::with_a, crate::specs::Record::with_t, crate::specs::Record::with_x, crate::specs::Record::with_y, crate::specs::Record::with_u, crate::specs::Record::with_s, crate::specs::Record::with_p, crate::specs::Record::with_is_halted, crate::specs::Record::with_pu, crate::specs::Record::with_pv, crate::specs::Record::with_bf, crate::specs::Record::with_disp, crate::specs::Record::with_tm, crate::specs::Record::with_ir0, crate::specs::Record::with_ir1, crate::specs::Record::with_ir2, crate::specs::Record::with_is_timer_reached, crate::specs::Record::with_timer_state, crate::specs::Record::with_step_previous_state, crate::specs::Record::with_ticks))]

ghost use Rattle.std.specs.Prelude.{◌≡◌};
ghost use Rattle.arithmetic.specs.Record.{with_a, with_t, with_x, with_y, with_u, with_s, with_p, with_is_halted, with_pu, with_pv, with_bf, with_disp, with_tm, with_ir0, with_ir1, with_ir2, with_is_timer_reached, with_timer_state, with_step_previous_state, with_ticks};

#[derive(Clone, Copy, Debug, Default, PartialEq, Eq)]
pub struct Lh5801 {
    /// accumulator
    pub a: u8,
    /// flags: C 01, IE 02, Z 04, V 08, H 10; the upper three bits are only kept
    pub t: u8,
    /// register pairs
    pub x: u16,
    pub y: u16,
    pub u: u16,
    /// stack pointer
    pub s: u16,
    /// program counter
    pub p: u16,
    /// HLT was executed, and no interrupt was taken since
    pub is_halted: bool,
    /// the output lines PU and PV
    pub pu: bool,
    pub pv: bool,
    /// power: while it is clear nothing is executed
    pub bf: bool,
    /// display on
    pub disp: bool,
    /// timer value, 0 to 511: TM
    pub tm: u16,
    /// interrupt requests: IR0, which IE does not mask, IR1, which the timer makes too, and IR2
    pub ir0: bool,
    pub ir1: bool,
    pub ir2: bool,
    /// document 01's "timer reached"
    pub is_timer_reached: bool,
    /// document 01's "timer states"
    pub timer_state: u64,
    /// document 01's "previous states": timer states at the last shift of TM or after the last CDV
    pub step_previous_state: u64,
    /// document 01's "ticks"
    pub ticks: u64,
}

impl Lh5801 {
    // A parameter cannot name a field, so each has a setter of its own.
    pub fn with_a(self, v: u8) -> Self
        ensures { result ≡ with_a self v }
    {
        Lh5801 { a: v, ..self }
    }

    pub fn with_t(self, v: u8) -> Self
        ensures { result ≡ with_t self v }
    {
        Lh5801 { t: v, ..self }
    }

    pub fn with_x(self, v: u16) -> Self
        ensures { result ≡ with_x self v }
    {
        Lh5801 { x: v, ..self }
    }

    pub fn with_y(self, v: u16) -> Self
        ensures { result ≡ with_y self v }
    {
        Lh5801 { y: v, ..self }
    }

    pub fn with_u(self, v: u16) -> Self
        ensures { result ≡ with_u self v }
    {
        Lh5801 { u: v, ..self }
    }

    pub fn with_s(self, v: u16) -> Self
        ensures { result ≡ with_s self v }
    {
        Lh5801 { s: v, ..self }
    }

    pub fn with_p(self, v: u16) -> Self
        ensures { result ≡ with_p self v }
    {
        Lh5801 { p: v, ..self }
    }

    pub fn with_is_halted(self, v: bool) -> Self
        ensures { result ≡ with_is_halted self v }
    {
        Lh5801 {
            is_halted: v,
            ..self
        }
    }

    pub fn with_pu(self, v: bool) -> Self
        ensures { result ≡ with_pu self v }
    {
        Lh5801 { pu: v, ..self }
    }

    pub fn with_pv(self, v: bool) -> Self
        ensures { result ≡ with_pv self v }
    {
        Lh5801 { pv: v, ..self }
    }

    pub fn with_bf(self, v: bool) -> Self
        ensures { result ≡ with_bf self v }
    {
        Lh5801 { bf: v, ..self }
    }

    pub fn with_disp(self, v: bool) -> Self
        ensures { result ≡ with_disp self v }
    {
        Lh5801 { disp: v, ..self }
    }

    pub fn with_tm(self, v: u16) -> Self
        ensures { result ≡ with_tm self v }
    {
        Lh5801 { tm: v, ..self }
    }

    pub fn with_ir0(self, v: bool) -> Self
        ensures { result ≡ with_ir0 self v }
    {
        Lh5801 { ir0: v, ..self }
    }

    pub fn with_ir1(self, v: bool) -> Self
        ensures { result ≡ with_ir1 self v }
    {
        Lh5801 { ir1: v, ..self }
    }

    pub fn with_ir2(self, v: bool) -> Self
        ensures { result ≡ with_ir2 self v }
    {
        Lh5801 { ir2: v, ..self }
    }

    pub fn with_is_timer_reached(self, v: bool) -> Self
        ensures { result ≡ with_is_timer_reached self v }
    {
        Lh5801 {
            is_timer_reached: v,
            ..self
        }
    }

    pub fn with_timer_state(self, v: u64) -> Self
        ensures { result ≡ with_timer_state self v }
    {
        Lh5801 {
            timer_state: v,
            ..self
        }
    }

    pub fn with_step_previous_state(self, v: u64) -> Self
        ensures { result ≡ with_step_previous_state self v }
    {
        Lh5801 {
            step_previous_state: v,
            ..self
        }
    }

    pub fn with_ticks(self, v: u64) -> Self
        ensures { result ≡ with_ticks self v }
    {
        Lh5801 { ticks: v, ..self }
    }
}
