//! The writes of a bus log against the list of an analyser that catches writes alone (document 02, F-3).
#![tactic(auto)]

ghost use Rattle.std.specs.Prelude.{◌≡◌, ◌&&◌, not};
ghost use Rattle.analyser.specs.Comparison.{is_write, write_in, same_write, comparison_of, number_of, place_of};

/// What the comparison says. A place is counted in writes, from 0: it is how many writes before it are the same.
#[derive(Clone, Copy)]
pub enum Comparison {
    /// Both have the same writes in the same order.
    Equal,
    /// The writes at the place are not the same.
    Differ(usize),
    /// At the place the log has no write left, and the analyser's list has.
    LogEnded(usize),
    /// At the place the analyser's list has ended, and the log has a write.
    AnalyserEnded(usize),
}

impl Comparison {
    /// The number of the answer in C.
    pub fn number(self) -> u8
        ensures { result ≡ number_of self }
    {
        match self {
            Comparison::Equal => 0,
            Comparison::Differ(_) => 1,
            Comparison::LogEnded(_) => 2,
            Comparison::AnalyserEnded(_) => 3,
        }
    }

    /// Its place in C.
    pub fn place(self) -> usize
        ensures { result ≡ place_of self }
    {
        match self {
            Comparison::Equal => 0,
            Comparison::Differ(n) | Comparison::LogEnded(n) | Comparison::AnalyserEnded(n) => n,
        }
    }
}

// Bit 25 of an entry of the log marks a write.
#[tactic(auto, using(crate::proofs::Writes::mark))]
fn is_write(entry: u32) -> bool
    ensures { result ≡ is_write entry }
{
    entry & 0x2000000 != 0
}

// An entry of the log is a write, and not the same as the analyser's. The sum has bit 25 exactly where the low bits are not the same, so one test
// says it of reads and writes alike.
#[tactic(auto, using(crate::proofs::Writes::differs_mark))]
fn differs(entry: u32, other: u32) -> bool
    ensures { result ≡ (is_write entry && not (same_write (write_in entry) (write_in other))) }
{
    let apart = entry.wrapping_sub(other) % 0x2000000;
    (apart + 0x1ffffff) & entry & 0x2000000 != 0
}

/// The writes of our log, in order, against the analyser's entries.
#[tactic(auto, using(crate::proofs::Verdict::from_start, crate::proofs::Verdict::turn_read, crate::proofs::Verdict::turn_next, crate::proofs::Verdict::turn_differ, crate::proofs::Verdict::turn_ended, crate::proofs::Verdict::end_left, crate::proofs::Verdict::end_equal))]
pub fn compare(log: &[u32], analyser: &[u32]) -> Comparison
    ensures { result ≡ comparison_of log.now analyser.now }
{
    let mut common = 0;
    for &entry in log {
        match analyser.get(common) {
            Some(&other) if differs(entry, other) => return Comparison::Differ(common),
            None if is_write(entry) => return Comparison::AnalyserEnded(common),
            _ => common += usize::from(is_write(entry)),
        }
    }
    if common < analyser.len() {
        Comparison::LogEnded(common)
    } else {
        Comparison::Equal
    }
}
