//! The run call.
#![tactic(auto)]

ghost use Rattle.std.specs.Prelude.{◌≡◌, ◌<◌, ◌≤◌, true, false};
ghost use Rattle.pages.specs.Pages.{pages};
ghost use Rattle.pages.specs.Contract.{at_entry, held, as_shared};
ghost use Rattle.execution.specs.Code.Due.{due_of};
ghost use Rattle.run.specs.Acceptance.{end_number, end_byte, not_accepted};
ghost use Rattle.run.specs.BusLog.{log_full};
ghost use Rattle.run.specs.Run.{run_of, call_of};
ghost use Rattle.run.specs.Answers.{free_if, CallAnswers};
ghost use Rattle.run.specs.Code.Leads.{unmoved_of, LeadsIn, Passes, BeforeStretch};
ghost use Rattle.run.specs.Code.States.{answer_of, states_between, AnswersIn};

use arithmetic::record::Lh5801;
use bus::BusLog;
use execution::{Executed, Inputs, Opcode, Stop};
use pages::{Memory, ReadOnly, View};

pub mod campaign_file;
pub mod line;
pub mod parts;
pub mod record_numbers;
pub mod report;

/// What a call is given besides the record, the pages and the log.
#[derive(Clone, Copy)]
pub struct Settings {
    pub inputs: Inputs,
    pub limit: u32,
}

/// Why a call ended: all its steps done, not accepted, the log full before a step, or a step's stop.
#[derive(Clone, Copy)]
pub enum End {
    AllSteps,
    Page0Length,
    Page1Length,
    TimerValue,
    Limit,
    LogFull,
    Step(Stop),
}

impl End {
    /// The number of a call's end: document 01's, and document 02's 11 and 12.
    pub fn number(self) -> u8
        ensures { result ≡ end_number self }
    {
        match self {
            End::AllSteps => 0,
            End::Page0Length => 1,
            End::Page1Length => 2,
            End::TimerValue => 3,
            End::Limit => 4,
            End::Step(Stop::Unlisted(Opcode::First(_))) => 5,
            End::Step(Stop::Unlisted(Opcode::AfterFd(_))) => 6,
            End::Step(Stop::Halted) => 7,
            End::LogFull => 11,
            End::Step(Stop::AtAddress) => 12,
        }
    }

    /// Document 01's byte of a call's end.
    pub fn byte(self) -> u8
        ensures { result ≡ end_byte self }
    {
        match self {
            End::Step(Stop::Unlisted(Opcode::First(byte) | Opcode::AfterFd(byte))) => byte,
            _ => 0,
        }
    }
}

/// What a call returns.
#[derive(Clone, Copy)]
pub struct Answer {
    pub end: End,
    pub steps: u32,
    pub states: u64,
    pub cpu: Lh5801,
}

// The record after the completed steps; their states are what the ticks moved on by since first.
fn answered(cpu: Lh5801, first: u64, steps: u32, end: End) -> Answer
    ensures { result ≡ answer_of end steps (states_between first cpu.ticks) cpu }
{
    let states = cpu.ticks.wrapping_sub(first);
    Answer {
        end,
        steps,
        states,
        cpu,
    }
}

/// What a stretch of steps led to: how many of the call are now completed, the record after them, and the stop of the next step; where there is none, any
/// step may come.
#[derive(Clone, Copy)]
pub struct Led {
    pub steps: u32,
    pub cpu: Lh5801,
    pub stop: Option<Stop>,
}

// The record before timer reached moved to IR1.
#[tactic(auto, unfolding(crate::specs::Code::Leads::unmoved_of))]
fn unmoved(moved: Lh5801, before: Lh5801) -> Lh5801
    ensures { result ≡ unmoved_of moved before }
{
    moved
        .with_ir1(before.ir1)
        .with_is_timer_reached(before.is_timer_reached)
}

// Instruction after instruction, for as long as nothing else can be due; so many steps were completed before.
fn instructions(cpu: Lh5801, memory: &mut Memory, settings: Settings, done: u32) -> Led
    requires { (due_of cpu ≡ true) × (done < settings.limit) × Passes settings done cpu }
    ensures { LeadsIn settings done cpu memory.entry.now result memory.exit.now }
{
    let mut current = execution::reached(cpu);
    for steps in done..settings.limit {
        match execution::instruction(current, memory, settings.inputs) {
            Ok(Executed::Again(next)) => current = next,
            Ok(Executed::Completed(next)) => {
                return Led {
                    steps: steps + 1,
                    cpu: next,
                    stop: None,
                };
            }
            Err(stop) => {
                // The step that stops is undone whole: before the first, timer reached has not moved.
                let cpu = if steps == done {
                    unmoved(current, cpu)
                } else {
                    current
                };
                return Led {
                    steps,
                    cpu,
                    stop: Some(stop),
                };
            }
        }
    }
    Led {
        steps: settings.limit,
        cpu: current,
        stop: None,
    }
}

// One step in which no instruction is due; so many were completed before.
#[tactic(auto, using(crate::proofs::Loop::one_did, crate::proofs::Loop::one_stops))]
fn other_step(cpu: Lh5801, memory: &mut Memory, settings: Settings, done: u32) -> Led
    requires { (due_of cpu ≡ false) × (done < settings.limit) }
    ensures { LeadsIn settings done cpu memory.entry.now result memory.exit.now }
{
    match execution::step_cpu(cpu, memory, settings.inputs) {
        Ok(next) => Led {
            steps: done + 1,
            cpu: next,
            stop: None,
        },
        Err(stop) => Led {
            steps: done,
            cpu,
            stop: Some(stop),
        },
    }
}

// The next steps: instructions for as long as they are due, or one step of another kind; so many were completed before.
fn advance(cpu: Lh5801, memory: &mut Memory, settings: Settings, done: u32) -> Led
    requires { (done < settings.limit) × Passes settings done cpu }
    ensures { LeadsIn settings done cpu memory.entry.now result memory.exit.now }
{
    if !execution::due(cpu) {
        return other_step(cpu, memory, settings, done);
    }
    instructions(cpu, memory, settings, done)
}

// A log is lent, and fewer than seven of its entries are free, or the used count is beyond it.
#[tactic(auto, unfolding(crate::specs::BusLog::free_in))]
fn log_full(is_lent: bool, log: &BusLog) -> bool
    ensures { result ≡ log_full (free_if is_lent log.now) }
{
    let length = log.entries.len();
    is_lent && (length < log.used || length - log.used < 7)
}

// Before a stretch of steps, where so many of the call are done: the limit of the stretch, or why the next step is not begun. Without a log and a stop
// address it is the call's. With one of them the stretch is the next step alone, and that step's accesses are appended to a log, none if it will stop.
fn before_stretch(
    cpu: Lh5801,
    view: View,
    is_lent: bool,
    log: &mut BusLog,
    settings: Settings,
    done: u32,
) -> Result<u32, End>
    requires { done < settings.limit }
    ensures { BeforeStretch settings done cpu (as_shared view) is_lent result log.old log.new }
{
    if !is_lent & settings.inputs.stop_address.is_none() {
        return Ok(settings.limit);
    }
    if log_full(is_lent, log) {
        return Err(End::LogFull);
    }
    if execution::stops_before(cpu, settings.inputs) {
        return Err(End::Step(Stop::AtAddress));
    }
    if is_lent {
        bus::note_step(cpu, view, log);
    }
    Ok(done + 1)
}

// Steps up to the limit, to a full log or to the first that stops. How many steps a stretch completes is known after it, so that no range counts them.
// Always inline, and so is `run`: as a call of its own it would be handed the record in memory (docs/TRIED.md).
#[inline(always)]
fn steps_of(
    cpu: Lh5801,
    memory: &mut Memory,
    is_lent: bool,
    log: &mut BusLog,
    settings: Settings,
) -> Answer
    requires { settings.limit ≤ 1000000 }
    ensures { AnswersIn (run_of settings.limit settings.inputs (free_if is_lent log.old) cpu (at_entry memory)) memory.entry.now result memory.exit.now is_lent log.old log.new }
{
    let first = cpu.ticks;
    let mut current = cpu;
    let mut steps = 0;
    while steps < settings.limit {
        let limit = match before_stretch(current, memory.view(), is_lent, log, settings, steps) {
            Ok(limit) => limit,
            Err(end) => return answered(current, first, steps, end),
        };
        let stretch = Settings { limit, ..settings };
        let led = advance(current, memory, stretch, steps);
        current = led.cpu;
        steps = led.steps;
        if let Some(stop) = led.stop {
            return answered(current, first, steps, End::Step(stop));
        }
    }
    answered(current, first, steps, End::AllSteps)
}

// Why a call is not accepted, if so: the first of the conditions that holds.
#[tactic(auto, unfolding(crate::specs::Acceptance::not_accepted))]
fn not_accepted(cpu: Lh5801, memory: &Memory, settings: Settings) -> Option<End>
    ensures { result ≡ not_accepted settings cpu (held memory.now) }
{
    if 65536 < memory.page0.len() {
        return Some(End::Page0Length);
    }
    if 65536 < memory.page1.len() {
        return Some(End::Page1Length);
    }
    if 511 < cpu.tm {
        return Some(End::TimerValue);
    }
    if settings.limit == 0 || 1000000 < settings.limit {
        return Some(End::Limit);
    }
    None
}

/// The run call: not accepted, or its steps. A log that is not lent is left as it is, and the call is one without a log.
#[inline(always)]
pub fn run(
    cpu: Lh5801,
    page0: &mut [u8],
    page1: &mut [u8],
    read_only: ReadOnly,
    is_lent: bool,
    log: &mut BusLog,
    settings: Settings,
) -> Answer
    ensures { CallAnswers (call_of settings (free_if is_lent log.old) cpu (pages page0.old page1.old read_only)) result (pages page0.new page1.new read_only) is_lent log.old log.new }
{
    let mut memory = Memory {
        page0,
        page1,
        read_only,
    };
    if let Some(end) = not_accepted(cpu, &memory, settings) {
        return Answer {
            end,
            steps: 0,
            states: 0,
            cpu,
        };
    }
    steps_of(cpu, &mut memory, is_lent, log, settings)
}
