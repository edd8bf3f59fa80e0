//! Parts of buffers: bytes of a file put at the start of a page, and the run call on the starts of two pages.
ghost use Rattle.std.specs.Prelude.{◌≡◌, ◌+◌, ◌≤◌, length};
ghost use Rattle.run.specs.Parts.{part, at_start, RunParts};

use crate::{Answer, Settings};
use arithmetic::record::Lh5801;
use bus::BusLog;
use pages::ReadOnly;

/// So many bytes, from a place on, to the start of a page: place and length are numbers of the file, which are checked before.
#[tactic(auto, using(crate::proofs::Stored::range_part, crate::proofs::Stored::part_length, crate::proofs::Stored::put_before))]
pub fn copy_part(bytes: &[u8], at: usize, page: &mut [u8], len: usize)
    requires { (at + len ≤ length bytes.now) × (len ≤ length page.old) }
    ensures { page.new ≡ at_start page.old (part bytes.now at len) }
{
    page[..len].copy_from_slice(&bytes[at..at + len]);
}

/// The run call on the starts of two pages.
pub fn run_parts(
    cpu: Lh5801,
    page0: &mut [u8],
    len0: usize,
    page1: &mut [u8],
    len1: usize,
    read_only: ReadOnly,
    is_lent: bool,
    log: &mut BusLog,
    settings: Settings,
) -> Answer
    requires { (len0 ≤ length page0.old) × (len1 ≤ length page1.old) }
    ensures { RunParts settings is_lent log.old cpu page0.old len0 page1.old len1 read_only result page0.new page1.new log.new }
{
    crate::run(
        cpu,
        &mut page0[..len0],
        &mut page1[..len1],
        read_only,
        is_lent,
        log,
        settings,
    )
}
