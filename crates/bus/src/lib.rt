//! The accesses of the coming step as entries of a log (document 02, F-2), computed from the record and the memory before the step. Nothing
//! here is called where no log is lent. What would go past the end of the list is dropped, and the caller sees to it that seven entries
//! are free.
#![tactic(auto)]

ghost use Rattle.std.specs.Prelude.{◌≡◌, ◌≤◌, [], ◌∷◌};
ghost use Rattle.pages.specs.Pages.{at as byte_at};
ghost use Rattle.pages.specs.Prog.{read_of};
ghost use Rattle.pages.specs.Contract.{as_shared};
ghost use Rattle.execution.specs.Code.Shapes.{bytes_from, push_word_accesses, after_write, after_push_word, push_and_vector_accesses, vector_accesses, accept_accesses, accesses_at, place_accesses, vector_if_accesses, shape_accesses, opcode_accesses, instruction_accesses};
ghost use Rattle.bus.specs.Code.Notes.{most, Notes, access_of, AppendsStep};

use arithmetic::record::Lh5801;
use execution::instructions::Condition;
use execution::places::Place;
use execution::shapes::{Action, Shape};
use execution::{Opcode, interrupts, places};
use pages::View;

mod tables;

/// Document 02's bus log: a lent list of entries, and how many of them are used.
#[derive(Drop)]
pub struct BusLog<'a> {
    pub entries: &'a mut [u32],
    pub used: usize,
}

// What an entry is of.
#[derive(Clone, Copy)]
enum Kind {
    Read,
    Write,
}

// What an address reads after v was written at s, where it read b before: a write that is not stored changes nothing.
fn after_write(view: View, s: u16, v: u8, addr: u32, b: u8) -> u8
    ensures { result ≡ after_write (as_shared view) s v addr b }
{
    if addr == u32::from(s) && view.stored(addr) {
        v
    } else {
        b
    }
}

// What it reads after the word w was pushed, where S was s.
fn after_push_word(view: View, s: u16, w: u16, addr: u32, b: u8) -> u8
    ensures { result ≡ after_push_word (as_shared view) s w addr b }
{
    let [high, low] = w.to_be_bytes();
    let first = after_write(view, s, low, addr, b);
    after_write(view, s.wrapping_sub(1), high, addr, first)
}

impl BusLog<'_> {
    // One entry. It is counted where the list has no place for it, too.
    fn note(&mut self, kind: Kind, addr: u32, byte: u8)
        ensures { Notes (access_of kind addr byte ∷ []) self }
    {
        let mark = match kind {
            Kind::Read => 0,
            Kind::Write => 0x2000000,
        };
        pages::put_at(
            self.entries,
            self.used,
            mark + (addr % 0x20000 * 256 + u32::from(byte)),
        );
        self.used = self.used.wrapping_add(1);
    }

    // A read, by the byte that the address reads before the step.
    #[tactic(auto, using(pages::proofs::Does::read_value))]
    fn read(&mut self, view: View, addr: u32) -> u8
        ensures { Notes (read_of addr (byte_at (as_shared view) addr) ∷ []) self × (result ≡ byte_at (as_shared view) addr) }
    {
        let byte = view.read_byte(addr);
        self.note(Kind::Read, addr, byte);
        byte
    }

    // So many bytes, one after the other.
    fn bytes(&mut self, view: View, from: u16, k: u8)
        ensures { Notes (bytes_from (as_shared view) from k) self }
    {
        for i in 0..k {
            self.read(view, u32::from(from.wrapping_add(u16::from(i))));
        }
    }

    // A word pushed, low byte first.
    fn push_word(&mut self, s: u16, w: u16)
        ensures { Notes (push_word_accesses s w) self }
    {
        let [high, low] = w.to_be_bytes();
        self.note(Kind::Write, u32::from(s), low);
        self.note(Kind::Write, u32::from(s.wrapping_sub(1)), high);
    }

    // A word pushed, and then the vector at an address read, which held high and low before the push.
    fn push_and_vector(&mut self, view: View, s: u16, w: u16, vector: u16, high: u8, low: u8)
        ensures { Notes (push_and_vector_accesses (as_shared view) s w vector high low) self }
    {
        let addr = u32::from(vector);
        self.push_word(s, w);
        let first = after_push_word(view, s, w, addr, high);
        self.note(Kind::Read, addr, first);
        let second = after_push_word(view, s, w, addr + 1, low);
        self.note(Kind::Read, addr + 1, second);
    }

    // A vector taken, by its number.
    fn vector(&mut self, view: View, s: u16, w: u16, nr: u8)
        ensures { Notes (vector_accesses (as_shared view) s w nr) self }
    {
        let vector = 0xff00 + u16::from(nr);
        let high = view.read_byte(u32::from(vector));
        let low = view.read_byte(u32::from(vector) + 1);
        self.push_and_vector(view, s, w, vector, high, low);
    }

    // What is done at an address; p is the address of the code after the opcode and the word.
    fn at(&mut self, cpu: Lh5801, view: View, action: Action, addr: u32, p: u16)
        ensures { Notes (accesses_at cpu (as_shared view) action addr p) self }
    {
        match action {
            Action::Read => {
                self.read(view, addr);
            }
            Action::StoreA => self.note(Kind::Write, addr, cpu.a),
            Action::Update(change) => {
                let v = self.read(view, u32::from(p));
                let b = self.read(view, addr);
                self.note(Kind::Write, addr, change.changed(cpu.t, b, v).value);
            }
            Action::Test => {
                self.read(view, addr);
                self.read(view, u32::from(p));
            }
            Action::RotateRight => {
                let b = self.read(view, addr);
                self.note(Kind::Write, addr, arithmetic::drr(cpu.a, b).byte);
            }
            Action::RotateLeft => {
                let b = self.read(view, addr);
                self.note(Kind::Write, addr, arithmetic::drl(cpu.a, b).byte);
            }
        }
    }

    // At a place in memory: its word in the code is read first, where it has one.
    fn place(&mut self, cpu: Lh5801, view: View, action: Action, place: Place)
        ensures { Notes (place_accesses cpu (as_shared view) action place) self }
    {
        if let Place::Fixed(_) = place {
            self.bytes(view, cpu.p, 2);
        }
        let l = places::locate(cpu, view, place);
        self.at(cpu, view, action, l.value, l.p);
    }

    // The vector's number in the code, and where the condition holds, the vector.
    fn vector_if(&mut self, cpu: Lh5801, view: View, c: Condition)
        ensures { Notes (vector_if_accesses cpu (as_shared view) c) self }
    {
        let nr = self.read(view, u32::from(cpu.p));
        if c.holds(cpu.t) {
            self.vector(view, cpu.s, cpu.p.wrapping_add(1), nr);
        }
    }

    // What follows the opcode; P stands after the opcode.
    fn shape(&mut self, cpu: Lh5801, view: View, shape: Shape)
        ensures { Notes (shape_accesses cpu (as_shared view) shape) self }
    {
        match shape {
            Shape::At(action, place) => self.place(cpu, view, action, place),
            Shape::Operand(k) => self.bytes(view, cpu.p, k),
            Shape::Popped(k) => self.bytes(view, cpu.s.wrapping_add(1), k),
            Shape::PushA => self.note(Kind::Write, u32::from(cpu.s), cpu.a),
            Shape::PushWord(r) => self.push_word(cpu.s, places::get_word(cpu, r)),
            Shape::Tin => {
                let b = self.read(view, u32::from(cpu.x));
                self.note(Kind::Write, u32::from(cpu.y), b);
            }
            Shape::Sjp => {
                self.bytes(view, cpu.p, 2);
                self.push_word(cpu.s, cpu.p.wrapping_add(2));
            }
            Shape::Vector(nr) => self.vector(view, cpu.s, cpu.p, nr),
            Shape::VectorIf(c) => self.vector_if(cpu, view, c),
        }
    }

    // The opcode's own bytes.
    fn opcode(&mut self, view: View, p: u16, opcode: Opcode)
        ensures { Notes (opcode_accesses (as_shared view) p opcode) self }
    {
        match opcode {
            Opcode::First(_) => self.bytes(view, p, 1),
            Opcode::AfterFd(_) => self.bytes(view, p, 2),
        }
    }

    // The instruction at P; nothing where it is unlisted.
    fn instruction(&mut self, cpu: Lh5801, view: View)
        ensures { Notes (instruction_accesses cpu (as_shared view)) self }
    {
        let o = execution::fetch(cpu.p, view);
        match tables::shape_of(o.value) {
            None => {}
            Some(shape) => {
                self.opcode(view, cpu.p, o.value);
                self.shape(cpu.with_p(o.p), view, shape);
            }
        }
    }

    // An accepted interrupt: T pushed, P pushed, and the vector read.
    fn accept(&mut self, cpu: Lh5801, view: View, vector: u16)
        ensures { Notes (accept_accesses cpu (as_shared view) vector) self }
    {
        let addr = u32::from(vector);
        self.note(Kind::Write, u32::from(cpu.s), cpu.t);
        let high = after_write(view, cpu.s, cpu.t, addr, view.read_byte(addr));
        let low = after_write(view, cpu.s, cpu.t, addr + 1, view.read_byte(addr + 1));
        self.push_and_vector(view, cpu.s.wrapping_sub(1), cpu.p, vector, high, low);
    }
}

/// The entries of the coming step's accesses are appended, if the step is completed; none if it stops. The step's inputs do not matter, but for a stop
/// address that it stops before: the caller has asked that.
pub fn note_step(cpu: Lh5801, view: View, log: &mut BusLog)
    requires { log.old.used ≤ most }
    ensures { AppendsStep cpu view log }
{
    if cpu.bf {
        match interrupts::accepted(cpu) {
            Some(interrupt) => log.accept(cpu, view, interrupt.vector()),
            // A halted step waits or stops, with no access.
            None if cpu.is_halted => {}
            None => log.instruction(cpu, view),
        }
    }
}
