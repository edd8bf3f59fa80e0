//! Pages, stack and timer of the LH5801.
#![tactic(auto)]

ghost use Rattle.std.specs.Prelude.{◌≡◌, ◌<◌, set, slice_index_or, slice_set};
ghost use Rattle.pages.specs.Pages.{inside, protected, stored};
ghost use Rattle.pages.specs.Prog.{read, write};
ghost use Rattle.pages.specs.Contract.{Changes, Reads, held, seen, as_shared};
ghost use Rattle.pages.specs.Stack.{me1_of, word_of, readop_of, readop_word_of, mem16_of, push_of, push_word_of, pop_of, pop_word_of, push_state_of, accept_of};
ghost use Rattle.pages.specs.Timer.{add_state_of, timer_inc_of, passed_of, timer_part_of};

use arithmetic::record::Lh5801;

/// The part of page 0 that no write changes: from its first address up to, not including, its end.
#[derive(Clone, Copy, Default)]
pub struct ReadOnly {
    pub first: u32,
    pub end: u32,
}

/// The two lent pages as one memory.
#[derive(Drop)]
pub struct Memory<'a> {
    pub page0: &'a mut [u8],
    pub page1: &'a mut [u8],
    pub read_only: ReadOnly,
}

/// The same pages, only to be read.
#[derive(Clone, Copy)]
pub struct View<'a> {
    pub page0: &'a [u8],
    pub page1: &'a [u8],
    pub read_only: ReadOnly,
}

/// What was read in the code or found by it, and the place after it.
#[derive(Clone, Copy)]
pub struct Code<T> {
    pub value: T,
    pub p: u16,
}

/// A word from the stack, and S after it: no `Code`, whose place is P.
#[derive(Clone, Copy)]
pub struct Popped {
    pub value: u16,
    pub s: u16,
}

// Past the end a byte reads FF.
fn byte_at(page: &[u8], at: usize) -> u8
    ensures { result ≡ slice_index_or page.now at 255 }
{
    page.get(at).copied().unwrap_or(255)
}

/// Puts a value at a place of a list; past the end it is dropped.
pub fn put_at<T: Copy>(list: &mut [T], at: usize, v: T)
    ensures { list.new ≡ slice_set list.old at v }
{
    // No `get_mut`: its contract says nothing of the list after the write.
    if at < list.len() {
        list[at] = v;
    }
}

/// The address on page 1.
pub fn me1(addr: u16) -> u32
    ensures { result ≡ me1_of addr }
{
    u32::from(addr) + 65536
}

pub fn word(high: u8, low: u8) -> u16
    ensures { result ≡ word_of high low }
{
    u16::from_be_bytes([high, low])
}

impl ReadOnly {
    // Page 1 has no such part, whatever the end is.
    #[tactic(auto, unfolding(crate::specs::Pages::protected))]
    fn protected(self, addr: u32) -> bool
        ensures { result ≡ protected self addr }
    {
        addr < 65536 && self.first <= addr && addr < self.end
    }
}

impl View<'_> {
    /// The byte at an address of 17 bits: page 0, or from 65,536 on page 1.
    // `as` here and below: no From gives a usize of a u32.
    #[tactic(auto, using(crate::proofs::Does::gives_read0, crate::proofs::Does::gives_read1))]
    pub fn read_byte(self, addr: u32) -> u8
        ensures { Reads (read addr) self result }
    {
        if addr < 65536 {
            byte_at(self.page0, addr as usize)
        } else {
            byte_at(self.page1, (addr - 65536) as usize)
        }
    }

    // A lent page has a byte at this address.
    #[tactic(auto, using(crate::proofs::Pages::inside_page0, crate::proofs::Pages::inside_page1))]
    fn inside(self, addr: u32) -> bool
        ensures { result ≡ inside (as_shared self) addr }
    {
        if addr < 65536 {
            (addr as usize) < self.page0.len()
        } else {
            ((addr - 65536) as usize) < self.page1.len()
        }
    }

    /// A write at this address is kept.
    #[tactic(auto, unfolding(crate::specs::Pages::stored))]
    pub fn stored(self, addr: u32) -> bool
        ensures { result ≡ stored (as_shared self) addr }
    {
        !self.read_only.protected(addr) && self.inside(addr)
    }

    pub fn cpu_readop(self, p: u16) -> Code<u8>
        ensures { Reads (readop_of p) self result }
    {
        let value = self.read_byte(u32::from(p));
        let p = p.wrapping_add(1);
        Code { value, p }
    }

    pub fn readop_word(self, p: u16) -> Code<u16>
        ensures { Reads (readop_word_of p) self result }
    {
        let hi = self.cpu_readop(p);
        let lo = self.cpu_readop(hi.p);
        let value = word(hi.value, lo.value);
        Code { value, p: lo.p }
    }

    /// The word at an address, high byte first; the second address does not wrap.
    pub fn get_mem16(self, addr: u16) -> u16
        ensures { Reads (mem16_of addr) self result }
    {
        let hi = self.read_byte(u32::from(addr));
        let lo = self.read_byte(u32::from(addr) + 1);
        word(hi, lo)
    }
}

impl Memory<'_> {
    pub fn view(&self) -> View<'_>
        ensures { seen result ≡ held self.now }
    {
        View {
            page0: self.page0,
            page1: self.page1,
            read_only: self.read_only,
        }
    }

    pub fn write_byte(&mut self, addr: u32, v: u8)
        ensures { Changes (write addr v) self tt }
    {
        if self.view().stored(addr) {
            if addr < 65536 {
                put_at(self.page0, addr as usize, v);
            } else {
                put_at(self.page1, (addr - 65536) as usize, v);
            }
        }
    }
}

pub fn push(cpu: Lh5801, memory: &mut Memory, v: u8) -> Lh5801
    ensures { Changes (push_of cpu v) memory result }
{
    memory.write_byte(u32::from(cpu.s), v);
    let s = cpu.s.wrapping_sub(1);
    cpu.with_s(s)
}

/// Low byte first.
pub fn push_word(cpu: Lh5801, memory: &mut Memory, w: u16) -> Lh5801
    ensures { Changes (push_word_of cpu w) memory result }
{
    let [high, low] = w.to_be_bytes();
    let once = push(cpu, memory, low);
    push(once, memory, high)
}

/// A from the stack, and Z from it.
pub fn pop(cpu: Lh5801, view: View) -> Lh5801
    ensures { Reads (pop_of cpu) view result }
{
    let s = cpu.s.wrapping_add(1);
    let b = view.read_byte(u32::from(s));
    arithmetic::lda(cpu.with_s(s), b)
}

/// High byte first.
pub fn pop_word(s: u16, view: View) -> Popped
    ensures { Reads (pop_word_of s) view result }
{
    let s1 = s.wrapping_add(1);
    let hi = view.read_byte(u32::from(s1));
    let s2 = s1.wrapping_add(1);
    let lo = view.read_byte(u32::from(s2));
    let w = word(hi, lo);
    Popped { value: w, s: s2 }
}

// T and P on the stack, T with IE still set, and IE cleared.
fn push_state(cpu: Lh5801, memory: &mut Memory) -> Lh5801
    ensures { Changes (push_state_of cpu) memory result }
{
    let first = push(cpu, memory, cpu.t);
    let t = arithmetic::set_flag(cpu.t, arithmetic::IE, false);
    push_word(first.with_t(t), memory, cpu.p)
}

/// An accepted interrupt.
pub fn accept(cpu: Lh5801, memory: &mut Memory, vector: u16) -> Lh5801
    ensures { Changes (accept_of cpu vector) memory result }
{
    let pushed = push_state(cpu, memory);
    let at = memory.view().get_mem16(vector);
    pushed.with_p(at).with_is_halted(false)
}

/// States pass, on the two counters.
#[tactic(auto, unfolding(crate::specs::Timer::add_state_of))]
pub fn add_state(cpu: Lh5801, n: u8) -> Lh5801
    ensures { result ≡ add_state_of cpu n }
{
    let now = cpu.timer_state.wrapping_add(u64::from(n));
    let ticks = cpu.ticks.wrapping_add(u64::from(n));
    cpu.with_timer_state(now).with_ticks(ticks)
}

/// TM shifted once.
#[tactic(auto, unfolding(crate::specs::Timer::shift_of, crate::specs::Timer::timer_inc_of))]
pub fn timer_inc(cpu: Lh5801) -> Lh5801
    ensures { result ≡ timer_inc_of cpu }
{
    let tm = cpu.tm;
    let next = tm / 2 + 256 * ((tm % 2 + tm / 16 % 2) % 2);
    cpu.with_tm(next).with_is_timer_reached(next == 511)
}

// The states since previous was set; the difference wraps.
#[tactic(auto, unfolding(crate::specs::Timer::passed_of))]
fn passed(cpu: Lh5801) -> u64
    ensures { result ≡ passed_of cpu }
{
    cpu.timer_state.wrapping_sub(cpu.step_previous_state)
}

/// One shift where 42 states or more have passed since previous was set.
#[tactic(auto, using(crate::proofs::Timer::timer_part_early, crate::proofs::Timer::timer_part_due))]
pub fn timer_part(cpu: Lh5801) -> Lh5801
    ensures { result ≡ timer_part_of cpu }
{
    if 42 <= passed(cpu) {
        timer_inc(cpu).with_step_previous_state(cpu.timer_state)
    } else {
        cpu
    }
}

/// A waiting step: its states pass, and then the timer part.
pub fn wait(cpu: Lh5801, idle: u8) -> Lh5801
    ensures { result ≡ timer_part_of (add_state_of cpu idle) }
{
    let later = add_state(cpu, idle);
    timer_part(later)
}
