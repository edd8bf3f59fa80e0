//! Decoding and execution of one instruction, and one step.
#![tactic(auto)]

ghost use Rattle.std.specs.Prelude.{◌≡◌, true, false};
ghost use Rattle.pages.specs.Prog.{mapped};
ghost use Rattle.pages.specs.Contract.{Changes, Reads};
ghost use Rattle.execution.specs.Instructions.{execute_of};
ghost use Rattle.execution.specs.Step.{fetch_of, decoded_by, reached_of, halted_of, step_of};
ghost use Rattle.execution.specs.Code.Outcomes.{outcome_of};
ghost use Rattle.execution.specs.Code.Due.{due_of, stops_before_of, Ready, settled_of, executed_of, DueAgain};
ghost use Rattle.execution.specs.Inputs.{of_keyboard, stops_at};

use crate::instructions::{Accumulator, Instruction, Listed, Signal};
use arithmetic::record::Lh5801;
use pages::{Code, Memory, View};

pub mod flow;
pub mod instructions;
pub mod interrupts;
pub mod opcodes;
pub mod opcodes_fd;
pub mod operations;
pub mod places;
pub mod shapes;
pub mod transfers;

/// What a step is given besides the record and the pages.
#[derive(Clone, Copy)]
pub struct Inputs {
    pub keyboard: u8,
    /// Document 02, F-1: how many states a halted step waits; with 0 it stops.
    pub idle: u8,
    /// Document 02, F-5: before an instruction at this address, if one is given, a step stops.
    pub stop_address: Option<u16>,
}

impl Inputs {
    /// The keyboard byte, and nothing else asked for.
    pub fn of_keyboard(keyboard: u8) -> Inputs
        ensures { result ≡ of_keyboard keyboard }
    {
        Inputs {
            keyboard,
            idle: 0,
            stop_address: None,
        }
    }

    // P is the stop address.
    fn stops_at(self, p: u16) -> bool
        ensures { result ≡ stops_at self p }
    {
        self.stop_address == Some(p)
    }
}

/// The byte that names an instruction: the first, or the one after FD.
#[derive(Clone, Copy)]
pub enum Opcode {
    First(u8),
    AfterFd(u8),
}

/// Why a step stops: document 01's 5 and 6 with the byte, and 7; and document 02's 12, before an instruction at the stop address.
#[derive(Clone, Copy)]
pub enum Stop {
    Unlisted(Opcode),
    Halted,
    AtAddress,
}

/// How the step of an instruction is completed: with an instruction due again, or not.
#[derive(Clone, Copy)]
pub enum Executed {
    Again(Lh5801),
    Completed(Lh5801),
}

// Always inline, and so is `flow::vector`: as a call of its own it would be handed the record in memory (docs/TRIED.md).
#[inline(always)]
#[tactic(auto, using(pages::proofs::Does::does_done, pages::proofs::Does::does_gives), unfolding(crate::specs::Instructions::execute_of))]
pub fn execute(cpu: Lh5801, memory: &mut Memory, inputs: Inputs, i: Instruction) -> Lh5801
    ensures { Changes (execute_of cpu inputs i) memory result }
{
    match i {
        Instruction::Alu(o, place) => operations::alu(cpu, memory.view(), o, place),
        Instruction::Sta(place) => operations::sta(cpu, memory, place),
        Instruction::Memory(o, place) => operations::memory(cpu, memory, o, place),
        Instruction::Bii(place) => operations::bii(cpu, memory.view(), place),
        Instruction::Drr(page) => operations::rotate::<true>(cpu, memory, page),
        Instruction::Drl(page) => operations::rotate::<false>(cpu, memory, page),
        Instruction::Load(h) => operations::load(cpu, memory.view(), h),
        Instruction::Compare(h) => operations::compare(cpu, memory.view(), h),
        Instruction::Inc(h) => operations::count_half::<true>(cpu, h),
        Instruction::Dec(h) => operations::count_half::<false>(cpu, h),
        Instruction::IncWord(r) => transfers::count_word::<true>(cpu, r),
        Instruction::DecWord(r) => transfers::count_word::<false>(cpu, r),
        Instruction::Sin(r) => transfers::store_and_count::<true>(cpu, memory, r),
        Instruction::Sde(r) => transfers::store_and_count::<false>(cpu, memory, r),
        Instruction::Lin(r) => transfers::load_and_count::<true>(cpu, memory.view(), r),
        Instruction::Lde(r) => transfers::load_and_count::<false>(cpu, memory.view(), r),
        Instruction::Branch(direction, c) => flow::branch(cpu, memory.view(), c, direction),
        Instruction::Lop => flow::lop(cpu, memory.view()),
        Instruction::VectorIf(c) => flow::vector_if(cpu, memory, c),
        Instruction::Vector(nr) => flow::vector(cpu, memory, nr),
        Instruction::Jmp => flow::jmp(cpu, memory.view()),
        Instruction::Sjp => flow::sjp(cpu, memory),
        Instruction::Rtn => flow::rtn(cpu, memory.view()),
        Instruction::Rti => flow::rti(cpu, memory.view()),
        Instruction::LoadS => transfers::load_s(cpu, memory.view()),
        Instruction::Tin => transfers::tin(cpu, memory),
        Instruction::Cin => transfers::cin(cpu, memory.view()),
        Instruction::OnA(o) => transfers::accumulator(cpu, o, inputs.keyboard),
        Instruction::Sets(s, value) => transfers::signal(cpu, s, value),
        Instruction::PopWord(r) => transfers::pop_to(cpu, memory.view(), r),
        Instruction::PushWord(r) => transfers::push_from(cpu, memory, r),
        Instruction::PopA => pages::pop(cpu, memory.view()),
        Instruction::PushA => pages::push(cpu, memory, cpu.a),
        Instruction::ToX(w) => transfers::to_x(cpu, w),
        Instruction::FromX(w) => transfers::from_x(cpu, w),
        Instruction::DropWord => transfers::drop_word(cpu),
        Instruction::Adr(r) => transfers::adr(cpu, r),
        Instruction::Off => cpu.with_bf(false),
        Instruction::Hlt => cpu.with_is_halted(true),
        Instruction::Cdv => transfers::cdv(cpu),
        Instruction::Nop => cpu,
    }
}

pub fn fetch(p: u16, view: View) -> Code<Opcode>
    ensures { Reads (fetch_of p) view result }
{
    let first = view.cpu_readop(p);
    if first.value != 0xfd {
        return Code {
            value: Opcode::First(first.value),
            p: first.p,
        };
    }
    let second = view.cpu_readop(first.p);
    Code {
        value: Opcode::AfterFd(second.value),
        p: second.p,
    }
}

impl Opcode {
    fn decode(self) -> Option<Listed>
        ensures { result ≡ decoded_by self }
    {
        match self {
            Opcode::First(byte) => opcodes::decode_first(byte),
            Opcode::AfterFd(byte) => opcodes_fd::decode_fd(byte),
        }
    }
}

impl Instruction {
    // Does an instruction keep BF, halted and IE?
    fn settled(self) -> bool
        ensures { result ≡ settled_of self }
    {
        !matches!(
            self,
            Instruction::Rti
                | Instruction::Off
                | Instruction::Hlt
                | Instruction::OnA(Accumulator::Att)
                | Instruction::Sets(Signal::InterruptEnable, _)
        )
    }
}

/// The step of an instruction that is due, where P is not the stop address: the record after it, and whether an instruction is due again; or the stop of
/// an unlisted byte.
pub fn instruction(cpu: Lh5801, memory: &mut Memory, inputs: Inputs) -> Result<Executed, Stop>
    requires { Ready cpu × (stops_at inputs cpu.p ≡ false) }
    ensures { Changes (mapped executed_of (step_of cpu inputs)) memory result × DueAgain result }
{
    let opcode = fetch(cpu.p, memory.view());
    let Some(listed) = opcode.value.decode() else {
        return Err(Stop::Unlisted(opcode.value));
    };
    let next = execute(cpu.with_p(opcode.p), memory, inputs, listed.instruction);
    // Asked before the timer part: after it, each step costs nine machine instructions more.
    if listed.instruction.settled() {
        let k = pages::timer_part(pages::add_state(next, listed.states));
        if k.is_timer_reached {
            Ok(Executed::Completed(k))
        } else {
            Ok(Executed::Again(k))
        }
    } else {
        Ok(Executed::Completed(pages::timer_part(pages::add_state(next, listed.states))))
    }
}

/// Timer reached moves to IR1.
#[tactic(auto, unfolding(crate::specs::Step::reached_of))]
pub fn reached(cpu: Lh5801) -> Lh5801
    ensures { result ≡ reached_of cpu }
{
    if cpu.is_timer_reached {
        cpu.with_ir1(true).with_is_timer_reached(false)
    } else {
        cpu
    }
}

// A step of a halted unit, when no interrupt is accepted: it stops, or waits.
#[tactic(auto, unfolding(crate::specs::Step::halted_of))]
fn halted(cpu: Lh5801, inputs: Inputs) -> Result<Lh5801, Stop>
    ensures { result ≡ outcome_of (halted_of cpu inputs) }
{
    if inputs.idle == 0 {
        Err(Stop::Halted)
    } else {
        Ok(pages::wait(cpu, inputs.idle))
    }
}

/// An instruction is due: BF set, no interrupt accepted, not halted.
pub fn due(cpu: Lh5801) -> bool
    ensures { result ≡ due_of cpu }
{
    let enabled = arithmetic::get_flag(cpu.t, arithmetic::IE);
    let requested = cpu.ir1 | cpu.is_timer_reached | cpu.ir2;
    let other = cpu.ir0 | (requested & enabled) | cpu.is_halted;
    cpu.bf & !other
}

/// The next step stops with 12: an instruction is due, and P is the stop address.
pub fn stops_before(cpu: Lh5801, inputs: Inputs) -> bool
    ensures { result ≡ stops_before_of cpu inputs }
{
    inputs.stops_at(cpu.p) && due(cpu)
}

/// One step in which no instruction is due.
pub fn step_cpu(cpu: Lh5801, memory: &mut Memory, inputs: Inputs) -> Result<Lh5801, Stop>
    requires { due_of cpu ≡ false }
    ensures { Changes (mapped outcome_of (step_of cpu inputs)) memory result }
{
    if cpu.bf {
        let moved = reached(cpu);
        match interrupts::accepted(moved) {
            Some(interrupt) => Ok(pages::timer_part(interrupt.accept(moved, memory))),
            None => halted(moved, inputs),
        }
    } else {
        Ok(pages::add_state(cpu, 8))
    }
}
