//! The interrupts: which one is accepted, and its entry.
#![tactic(auto)]

ghost use Rattle.std.specs.Prelude.{◌≡◌};
ghost use Rattle.pages.specs.Contract.{Changes};
ghost use Rattle.pages.specs.Stack.{accept_of};
ghost use Rattle.execution.specs.Interrupts.{accepted, vector_address, cleared};

use arithmetic::record::Lh5801;
use pages::Memory;

/// IR0, which IE does not mask, IR1, which timer reached asks for too, and IR2.
#[derive(Clone, Copy)]
pub enum Interrupt {
    Ir0,
    Ir1,
    Ir2,
}

impl Interrupt {
    /// The address of its vector.
    pub fn vector(self) -> u16
        ensures { result ≡ vector_address self }
    {
        match self {
            Interrupt::Ir0 => 0xfffc,
            Interrupt::Ir1 => 0xfffa,
            Interrupt::Ir2 => 0xfff8,
        }
    }

    // The record with its request cleared.
    fn cleared(self, cpu: Lh5801) -> Lh5801
        ensures { result ≡ cleared cpu self }
    {
        match self {
            Interrupt::Ir0 => cpu.with_ir0(false),
            Interrupt::Ir1 => cpu.with_ir1(false),
            Interrupt::Ir2 => cpu.with_ir2(false),
        }
    }

    /// It is entered: all of the entry but the timer part.
    pub fn accept(self, cpu: Lh5801, memory: &mut Memory) -> Lh5801
        ensures { Changes (accept_of (cleared cpu self) (vector_address self)) memory result }
    {
        pages::accept(self.cleared(cpu), memory, self.vector())
    }
}

/// The interrupt that is accepted, with BF set.
pub fn accepted(cpu: Lh5801) -> Option<Interrupt>
    ensures { result ≡ accepted cpu }
{
    if cpu.ir0 {
        return Some(Interrupt::Ir0);
    }
    // The two that IE masks are asked for by one test, which costs least where a log is lent (docs/TRIED.md).
    let ir1 = cpu.ir1 | cpu.is_timer_reached;
    if !((ir1 | cpu.ir2) & arithmetic::get_flag(cpu.t, arithmetic::IE)) {
        None
    } else if ir1 {
        Some(Interrupt::Ir1)
    } else {
        Some(Interrupt::Ir2)
    }
}
