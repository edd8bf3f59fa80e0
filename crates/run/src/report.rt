//! A campaign file, from its bytes to the line that the program prints.
ghost use Rattle.std.specs.Prelude.{◌≡◌, ◌+◌, ◌≤◌, length, None};
ghost use Rattle.run.specs.Run.{call_of};
ghost use Rattle.run.specs.Line.{Printed};
ghost use Rattle.run.specs.Report.{pages_in, settings_in, answer_line, report_of};

use crate::campaign_file::{Asked, Parsed};
use crate::{Answer, Settings, campaign_file, line, parts};
use bus::BusLog;
use execution::Inputs;
use pages::ReadOnly;

// What a call is given by what a file asks.
impl From<Asked> for Settings {
    ghost from_gives = { λ asked settings. settings ≡ settings_in asked };

    fn from(asked: Asked) -> Settings {
        Settings {
            inputs: Inputs::of_keyboard(asked.keyboard),
            limit: asked.limit,
        }
    }
}

// A file that was read: its run call, without a log and with nothing read-only.
#[tactic(auto, using(crate::proofs::Stored::copied), unfolding(crate::specs::BusLog::free_in))]
fn file_answer(bytes: &[u8], c: Parsed) -> Answer
    requires page0_len_in_bounds { (c.page0.at + c.page0.len ≤ length bytes.now) × (c.page0.len ≤ 16384) }
    requires page1_len_in_bounds { (c.page1.at + c.page1.len ≤ length bytes.now) × (c.page1.len ≤ 16384) }
    ensures { result ≡ (call_of (settings_in c.asked) None c.cpu (pages_in bytes.now c)).answer }
{
    let mut page0 = [0u8; 16384];
    let mut page1 = [0u8; 16384];
    parts::copy_part(bytes, c.page0.at, &mut page0, c.page0.len);
    parts::copy_part(bytes, c.page1.at, &mut page1, c.page1.len);
    let mut log = BusLog {
        entries: &mut [],
        used: 0,
    };
    parts::run_parts(
        c.cpu,
        &mut page0,
        c.page0.len,
        &mut page1,
        c.page1.len,
        ReadOnly::default(),
        false,
        &mut log,
        Settings::from(c.asked),
    )
}

/// The line of a call.
pub fn answer_line(out: &mut [u8; 200], a: Answer) -> usize
    ensures { Printed out.old (answer_line a) out.new result }
{
    line::line(out, a.end.number(), a.steps, a.states, a.cpu)
}

/// The line of a campaign file, at the start of a buffer; its length is returned.
#[tactic(auto, using(crate::proofs::Reading::file_within, crate::proofs::Reading::report_read, crate::proofs::Reading::report_refused))]
pub fn report(bytes: &[u8], out: &mut [u8; 200]) -> usize
    ensures { Printed out.old (report_of bytes.now) out.new result }
{
    match campaign_file::read_campaign(bytes) {
        Ok(c) => answer_line(out, file_answer(bytes, c)),
        Err(refusal) => line::refusal_line(out, refusal.number(), refusal.offset() as u64),
    }
}
