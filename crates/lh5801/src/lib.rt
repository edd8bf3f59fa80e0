//! The entries that a C or Rust program links: the run call, and the comparison of a log with an analyser's list.
#![tactic(auto)]

ghost use Rattle.std.specs.Prelude.{◌≡◌};
ghost use Rattle.std.specs.Bool.{then_some};
ghost use Rattle.pages.specs.Pages.{pages, read_only_of};
ghost use Rattle.execution.specs.Inputs.{inputs_of};
ghost use Rattle.run.specs.RecordNumbers.{AllWithin};
ghost use Rattle.run.specs.BusLog.{log_of, free_in, lent_if};
ghost use Rattle.run.specs.Run.{call_of, settings};
ghost use Rattle.analyser.specs.Comparison.{comparison_of};
ghost use Rattle.lh5801.specs.Words.{taken_of, cpu_of, words_of, word_widths, Left};
ghost use Rattle.lh5801.specs.Compared.{compared_of};

use bus::BusLog;
use execution::Inputs;
use pages::ReadOnly;
use run::{Answer, Settings, record_numbers};

// Words 0 to 11: the registers at their fields' widths, of the timer 65,535 where it is more, and the flags and the counters as they are.
#[tactic(auto, unfolding(crate::specs::Words::taken_of))]
fn taken(words: &[u64; 16]) -> [u64; 12]
    ensures { result ≡ taken_of words.now }
{
    [
        words[0] % 256,
        words[1] % 256,
        words[2] % 65536,
        words[3] % 65536,
        words[4] % 65536,
        words[5] % 65536,
        words[6] % 65536,
        words[7].min(65535),
        words[8],
        words[9],
        words[10],
        words[11],
    ]
}

// All sixteen words of an answer, each within its width.
fn words_of(r: Answer) -> [u64; 16]
    ensures { (result ≡ words_of r) × AllWithin word_widths (words_of r) }
{
    let mut words = [0u64; 16];
    words[..12].copy_from_slice(&record_numbers::from_record(r.cpu));
    words[12..].copy_from_slice(&[
        u64::from(r.end.number()),
        u64::from(r.end.byte()),
        u64::from(r.steps),
        r.states,
    ]);
    words
}

/// The run call; the used count after it is returned. `logged` says whether the log is lent. In C: lh5801_call(words, page0, length0, page1, length1, limit, keyboard, idle, logged, log,
/// log_length, log_used, read_only_first, read_only_end, stop_given, stop_address).
#[unsafe(no_mangle)]
pub extern "C" fn lh5801_call(
    words: &mut [u64; 16],
    page0: &mut [u8],
    page1: &mut [u8],
    limit: u32,
    keyboard: u8,
    idle: u8,
    logged: bool,
    log: &mut [u32],
    log_used: usize,
    read_only_first: u32,
    read_only_end: u32,
    stop_given: bool,
    stop_address: u16,
) -> usize
    ensures { Left (call_of (settings (inputs_of keyboard idle (then_some stop_given stop_address)) limit) (free_in (lent_if logged (log_of log.old log_used))) (cpu_of words.old) (pages page0.old page1.old (read_only_of read_only_first read_only_end))) logged (log_of log.old log_used) (log_of log.new result) words.new (pages page0.new page1.new (read_only_of read_only_first read_only_end)) }
{
    let numbers = taken(words);
    let cpu = record_numbers::record_of(&numbers);
    let settings = Settings {
        inputs: Inputs {
            keyboard,
            idle,
            stop_address: stop_given.then_some(stop_address),
        },
        limit,
    };
    let mut bus_log = BusLog {
        entries: log,
        used: log_used,
    };
    let read_only = ReadOnly {
        first: read_only_first,
        end: read_only_end,
    };
    let answer = run::run(cpu, page0, page1, read_only, logged, &mut bus_log, settings);
    *words = words_of(answer);
    bus_log.used
}

/// A comparison for C, by its number and its place: struct lh5801_comparison.
#[repr(C)]
#[derive(Drop)]
pub struct Compared {
    pub place: usize,
    pub number: u8,
}

/// The writes of a log against an analyser's list. In C: lh5801_compare(log, log_used, analyser, analyser_length).
#[unsafe(no_mangle)]
pub extern "C" fn lh5801_compare(log: &[u32], analyser: &[u32]) -> Compared
    ensures { result ≡ compared_of (comparison_of log.now analyser.now) }
{
    let comparison = analyser::compare(log, analyser);
    Compared {
        place: comparison.place(),
        number: comparison.number(),
    }
}
