//! Operand places.
ghost use Rattle.std.specs.Prelude.{◌≡◌};
ghost use Rattle.pages.specs.Contract.{Reads};
ghost use Rattle.execution.specs.Places.{word_in, with_word, half_in, with_half, address_of, locate_of, operand_of};

use arithmetic::record::Lh5801;
use pages::{Code, View};

#[derive(Clone, Copy)]
pub enum Register {
    X,
    Y,
    U,
}

/// A half of a register. Missing stands for the register that rows 3 and 7 name and the LH5801 does
/// not have: it reads 0, and what is put there is lost.
#[derive(Clone, Copy)]
pub enum Half {
    High(Register),
    Low(Register),
    Missing,
}

/// Page 0 is addressed 0 to FFFF, page 1 is 10000 to 1FFFF.
#[derive(Clone, Copy)]
pub enum Page {
    Me0,
    Me1,
}

/// Where an operand lies: in a half of a register, in memory where a register points, in memory at
/// the word in the code, or in the code itself.
#[derive(Clone, Copy)]
pub enum Place {
    InHalf(Half),
    Pointer(Page, Register),
    Fixed(Page),
    InCode,
}

pub fn get_word(cpu: Lh5801, r: Register) -> u16
    ensures { result ≡ word_in cpu r }
{
    match r {
        Register::X => cpu.x,
        Register::Y => cpu.y,
        Register::U => cpu.u,
    }
}

pub fn set_word(cpu: Lh5801, r: Register, w: u16) -> Lh5801
    ensures { result ≡ with_word cpu r w }
{
    match r {
        Register::X => cpu.with_x(w),
        Register::Y => cpu.with_y(w),
        Register::U => cpu.with_u(w),
    }
}

pub fn get_half(cpu: Lh5801, h: Half) -> u8
    ensures { result ≡ half_in cpu h }
{
    match h {
        Half::High(r) => get_word(cpu, r).to_be_bytes()[0],
        Half::Low(r) => get_word(cpu, r).to_be_bytes()[1],
        Half::Missing => 0,
    }
}

pub fn set_half(cpu: Lh5801, h: Half, v: u8) -> Lh5801
    ensures { result ≡ with_half cpu h v }
{
    match h {
        Half::High(r) => set_word(cpu, r, pages::word(v, get_half(cpu, Half::Low(r)))),
        Half::Low(r) => set_word(cpu, r, pages::word(get_half(cpu, Half::High(r)), v)),
        Half::Missing => cpu,
    }
}

pub fn paged(addr: u16, page: Page) -> u32
    ensures { result ≡ address_of addr page }
{
    match page {
        Page::Me0 => u32::from(addr),
        Page::Me1 => pages::me1(addr),
    }
}

/// The address of a place in memory, and P after it was found; a half and a byte in the code have none, and no instruction
/// asks for it.
#[tactic(auto, using(pages::proofs::Does::gives_done, pages::proofs::Does::gives_then), unfolding(crate::specs::Places::locate_of))]
pub fn locate(cpu: Lh5801, view: View, place: Place) -> Code<u32>
    ensures { Reads (locate_of cpu place) view result }
{
    match place {
        Place::Pointer(page, r) => Code {
            value: paged(get_word(cpu, r), page),
            p: cpu.p,
        },
        Place::Fixed(page) => {
            let w = view.readop_word(cpu.p);
            Code {
                value: paged(w.value, page),
                p: w.p,
            }
        }
        Place::InHalf(_) | Place::InCode => Code { value: 0, p: cpu.p },
    }
}

/// The byte of a place, and P after it was read.
#[tactic(auto, using(pages::proofs::Does::gives_done, pages::proofs::Does::gives_then), unfolding(crate::specs::Places::operand_of))]
pub fn operand(cpu: Lh5801, view: View, place: Place) -> Code<u8>
    ensures { Reads (operand_of cpu place) view result }
{
    match place {
        Place::InHalf(h) => Code {
            value: get_half(cpu, h),
            p: cpu.p,
        },
        Place::Pointer(page, r) => Code {
            value: view.read_byte(paged(get_word(cpu, r), page)),
            p: cpu.p,
        },
        Place::Fixed(page) => {
            let w = view.readop_word(cpu.p);
            Code {
                value: view.read_byte(paged(w.value, page)),
                p: w.p,
            }
        }
        Place::InCode => view.cpu_readop(cpu.p),
    }
}
