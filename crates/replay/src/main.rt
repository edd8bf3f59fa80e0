//! Replays a list of the original's answers, and prints how many calls there were and how many differ. No Rust is needed for it.
//!
//! The list, data/answers0.bin and on, cut between items, was made by `oracle items 1500 --seed 7 --out DIR`; a test of the oracle makes it again. First
//! come 3,432 calls with the original's answers, where stops 1 to 4, 7, 11 and 12, the dropping of writes and the entry of IR0 are the oracle's own: the
//! 930 directed calls of `oracle list` without a log and 1,500 random ones, every third of which has a log; then directed calls with a log: 187 short runs
//! with used counts up to, at and beyond the list's end, each listed opcode once, and 98 of the directed calls again, which are not of an opcode each and
//! take less than a million steps; then 147 directed calls with a read-only part, 73 of them with a log; then 155 directed calls with a stop address, 77
//! of them with a log and 45 with a read-only part; then 99 directed calls with IR0 set, 52 of them with a log, 13 with a read-only part and 8 with a stop
//! address. In all 1,303 calls have a log; 280 end with 11, 157 of them after completed steps, and 79 with 12; 295 begin with BF and IR0 set. Then come
//! 121 files that are turned down with 8, 9 or 10: document 01's example cut at every place, with bytes left over, with each field too great or too long,
//! and with random bytes changed; their lines are the oracle's own reading, for the original has none.
//! An item, its numbers lowest byte first: the campaign file's length (2 bytes), the two pages' lengths (4 each), the line's length (1), the fill
//! rule's first byte and step (1 each), how many bytes are set after it (1), the log's used count, or 65,535 where no log is lent (2), first and end of
//! the read-only part (4 each), the stop address, or a number above 65,535 where none is given (4); the campaign file; document 01's line; for each byte
//! that is set its offset (2), page (1) and value (1); the two sums over what the call leaves (8 each): both pages, then all entries of the list, then the
//! used count. The pages lent are as long as the item says: the fill rule, then the campaign file's bytes at their start, then the bytes that are set. So
//! pages can be longer than a campaign file holds. The list has 64 entries, each FFFFFFFF before the call, also where no log is lent; the used count is
//! then 0.
#![tactic(auto)]

ghost use Rattle.std.specs.Prelude.{◌≡◌, ℕ, ◌+◌, ◌^◌, ◌<◌, ◌≤◌, List, None, Some, length, take, IfOk, IfSome, MatchOption, slice_set};
ghost use Rattle.std.specs.List.{AllZip};
ghost use Rattle.run.specs.BusLog.{held_log};
ghost use Rattle.replay.specs.Numbers.{with_number, sums_of, sums_after_of, both_of, next_byte_of};
ghost use Rattle.replay.specs.Bytes.{fill_of, copy_page_of, patch_of, filled_page_of};
ghost use Rattle.replay.specs.Calls.{item_value, refusal_differs_of, log_in, stop_address_in, call_differs_of, differs_of, taken, number, item_in, replay_of, Replayed};

use bus::BusLog;
use execution::Inputs;
use pages::ReadOnly;
use run::campaign_file::{PagePlace, Parsed, Refusal};
use run::{Settings, campaign_file, line, parts, report};
use std::io::Read;
use std::rt::Files;
use std::{fs, io};

// The parts of the list, each in a file.
const PARTS: [&str; 10] = [
    "answers0.bin",
    "answers1.bin",
    "answers2.bin",
    "answers3.bin",
    "answers4.bin",
    "answers5.bin",
    "answers6.bin",
    "answers7.bin",
    "answers8.bin",
    "answers9.bin",
];

// Two running sums over numbers: each number is added to the first, and then the first to the second, modulo 2^64.
#[derive(Clone, Copy, Default, PartialEq, Eq)]
struct Sums {
    first: u64,
    second: u64,
}

// The fill rule's two bytes.
#[derive(Clone, Copy)]
struct Rule {
    first: u8,
    step: u8,
}

// What an item lends its call: pages of two lengths, made by the fill rule, with a read-only part, and a log, of which so many entries are used; and the
// stop address.
#[derive(Clone, Copy)]
struct Lent {
    len0: usize,
    len1: usize,
    rule: Rule,
    read_only: ReadOnly,
    log: Option<usize>,
    stop_address: Option<u16>,
}

// An item of the list: a campaign file, what is lent to its call, the bytes that are set, and the line and the sums that are wanted.
#[derive(Clone, Copy)]
struct Item<'a> {
    file: &'a [u8],
    lent: Lent,
    sets: &'a [u8],
    want: &'a [u8],
    want_sums: Sums,
}

// How many calls were replayed, and how many of them answered something else than the list.
#[derive(Clone, Copy, Default)]
struct Tally {
    calls: u64,
    differ: u64,
}

// The items of the list that are left.
#[derive(Drop)]
struct Items<'a> {
    left: &'a [u8],
}

impl Sums {
    // The sums with one number more.
    #[tactic(auto, unfolding(crate::specs::Numbers::with_number))]
    fn with_number(self, number: u64) -> Sums
        ensures { result ≡ with_number self number }
    {
        let first = self.first.wrapping_add(number);
        let second = self.second.wrapping_add(first);
        Sums { first, second }
    }

    // The sums go on over numbers of any width.
    fn over<T: Copy + Into<u64>>(self, numbers: &[T]) -> Sums
        ensures { (values : List ℕ) × AllZip T.converts numbers.now values × (result ≡ sums_of values self) }
    {
        let mut sums = self;
        for &number in numbers {
            sums = sums.with_number(number.into());
        }
        sums
    }
}

// A page's bytes, from their place in the file on, to the start of a page; nothing where they are not all there or do not fit.
#[tactic(auto, unfolding(crate::specs::Bytes::copy_page_of))]
fn copy_page(page: &mut [u8], file: &[u8], place: PagePlace)
    ensures { page.new ≡ copy_page_of file.now place.at page.old place.len }
{
    if place.at <= file.len() && place.len <= file.len() - place.at && place.len <= page.len() {
        parts::copy_part(file, place.at, page, place.len);
    }
}

// The fill rule's byte at offset i from the one before it: a step on, and four steps on where a block of 256 begins, modulo 256.
#[tactic(auto, unfolding(crate::specs::Numbers::next_byte_of))]
fn next_byte(byte: u8, step: u8, i: usize) -> u8
    ensures { result ≡ next_byte_of byte step i }
{
    let steps = if i % 256 == 0 { 4 } else { 1 };
    byte.wrapping_add(step.wrapping_mul(steps))
}

// The first bytes of a page by the fill rule.
#[tactic(auto, using(crate::proofs::Stores::one_filled, crate::proofs::Stores::all_filled), unfolding(crate::specs::Bytes::fill_of))]
fn fill(page: &mut [u8], len: usize, rule: Rule)
    ensures { page.new ≡ fill_of page.old len rule.first rule.step }
{
    let n = len.min(page.len());
    let start = &mut page[..n];
    let mut byte = rule.first;
    for (i, place) in start.iter_mut().enumerate() {
        *place = byte;
        byte = next_byte(byte, rule.step, i + 1);
    }
}

// The bytes that are set after the fill rule, in both pages: in groups of four the offset in two bytes, the page, and the byte. A group of another page sets
// nothing, and nor do fewer than four bytes at the end.
#[tactic(auto, using(crate::proofs::Groups::here, crate::proofs::Groups::elsewhere, crate::proofs::Groups::none_left))]
fn patch(page0: &mut [u8], page1: &mut [u8], sets: &[u8])
    ensures page0 { page0.new ≡ patch_of page0.old 0 sets.now }
    ensures page1 { page1.new ≡ patch_of page1.old 1 sets.now }
{
    let (groups, _) = sets.as_chunks::<4>();
    for &[low, high, page, byte] in groups {
        let offset = usize::from(u16::from_le_bytes([low, high]));
        match page {
            0 => pages::put_at(page0, offset, byte),
            1 => pages::put_at(page1, offset, byte),
            _ => {}
        }
    }
}

// A page before the bytes that are set: the fill rule, then the file's bytes.
#[tactic(auto, unfolding(crate::specs::Bytes::filled_page_of))]
fn prepare(page: &mut [u8], len: usize, rule: Rule, file: &[u8], place: PagePlace)
    ensures { page.new ≡ filled_page_of page.old len rule file.now place }
{
    fill(page, len, rule);
    copy_page(page, file, place);
}

// The log that an item lends: so many entries are used, and 65,535 says that there is no log.
#[tactic(auto, unfolding(crate::specs::Calls::log_in))]
fn log_of(used: u16) -> Option<usize>
    ensures { result ≡ log_in used }
{
    if used == 65535 {
        None
    } else {
        Some(usize::from(used))
    }
}

// The stop address that an item gives: a number above 65,535 says that there is none.
#[tactic(auto, unfolding(crate::specs::Calls::stop_address_in))]
fn stop_address_of(number: u32) -> Option<u16>
    ensures { result ≡ stop_address_in number }
{
    u16::try_from(number).ok()
}

// The sums over what a call leaves: the starts of both pages, all entries of the list, and the used count.
#[tactic(auto, unfolding(crate::specs::Numbers::sums_after_of))]
fn sums_after(page0: &[u8], page1: &[u8], log: &BusLog) -> Sums
    ensures { result ≡ sums_after_of page0.now page1.now (held_log log.now).entries (held_log log.now).used }
{
    Sums::default()
        .over(page0)
        .over(page1)
        .over(log.entries)
        .with_number(log.used as u64)
}

// Is the line of a file that was turned down another one?
#[tactic(auto, unfolding(crate::specs::Calls::refusal_differs_of))]
fn refusal_differs(refusal: Refusal, want: &[u8]) -> bool
    ensures { result ≡ refusal_differs_of refusal want.now }
{
    let mut out = [0u8; 200];
    let n = line::refusal_line(&mut out, refusal.number(), refusal.offset() as u64);
    &out[..n] != want
}

impl Item<'_> {
    // Does the call of the item's file, which was read, answer something else? It runs on the pages that the fill rule, the file and the bytes that are
    // set make, with the log and the stop address.
    #[tactic(auto, unfolding(crate::specs::Calls::call_differs_of, crate::specs::Calls::call_result_of))]
    fn call_differs(&self, c: Parsed) -> bool
        requires { (self.now.lent.len0 ≤ 65537) × (self.now.lent.len1 ≤ 65537) }
        ensures { result ≡ call_differs_of (item_value self.now) c }
    {
        let lent = self.lent;
        let mut page0 = [0u8; 65537];
        let mut page1 = [0u8; 65537];
        let mut entries = [u32::MAX; 64];
        let mut out = [0u8; 200];
        prepare(&mut page0, lent.len0, lent.rule, self.file, c.page0);
        prepare(&mut page1, lent.len1, lent.rule, self.file, c.page1);
        patch(&mut page0, &mut page1, self.sets);
        let page0 = &mut page0[..lent.len0];
        let page1 = &mut page1[..lent.len1];
        let mut log = BusLog {
            entries: &mut entries,
            used: lent.log.unwrap_or(0),
        };
        let asked = Settings::from(c.asked);
        let settings = Settings {
            inputs: Inputs {
                stop_address: lent.stop_address,
                ..asked.inputs
            },
            ..asked
        };
        let answer = run::run(
            c.cpu,
            page0,
            page1,
            lent.read_only,
            lent.log.is_some(),
            &mut log,
            settings,
        );
        let n = report::answer_line(&mut out, answer);
        let sums = sums_after(page0, page1, &log);
        (&out[..n] != self.want) | (sums != self.want_sums)
    }

    // One call of the list. The file is read before the lengths are tested, so that the great stack frame is made at the function's start: with the tests
    // first, clang 22.1.8 makes it behind them, and the loop that does so overwrites r11, where it keeps a length.
    #[tactic(auto, unfolding(crate::specs::Calls::differs_of))]
    fn differs(&self) -> bool
        ensures { result ≡ differs_of (item_value self.now) }
    {
        let read = campaign_file::read_campaign(self.file);
        if 65537 < self.lent.len0 {
            return true;
        }
        if 65537 < self.lent.len1 {
            return true;
        }
        match read {
            Ok(c) => self.call_differs(c),
            Err(refusal) => refusal_differs(refusal, self.want),
        }
    }
}

// Each method reads from the start of what is left, and gives nothing where fewer bytes are left than it reads.
impl<'a> Items<'a> {
    // So many bytes.
    #[tactic(auto, unfolding(crate::specs::Calls::taken))]
    fn read_bytes(&mut self, len: usize) -> Option<&'a [u8]>
        ensures taken { MatchOption result (taken len self.old.left.now ≡ None) (λ part. taken len self.old.left.now ≡ Some (part.now, self.new.left.now)) }
        ensures len { IfSome result (λ _. length self.new.left.now + len ≡ length self.old.left.now) }
    {
        let (part, left) = self.left.split_at_checked(len)?;
        self.left = left;
        Some(part)
    }

    // N bytes.
    #[tactic(auto, unfolding(crate::specs::Calls::taken))]
    fn read_array<const N: usize>(&mut self) -> Option<[u8; N]>
        ensures taken { MatchOption result (taken N self.old.left.now ≡ None) (λ part. taken N self.old.left.now ≡ Some (part, self.new.left.now)) }
        ensures len { IfSome result (λ _. length self.new.left.now + N ≡ length self.old.left.now) }
    {
        let (part, left) = self.left.split_first_chunk::<N>()?;
        self.left = left;
        Some(*part)
    }

    // A number of four bytes.
    #[tactic(auto, unfolding(crate::specs::Calls::number, crate::specs::Numbers::number_at))]
    fn read_number(&mut self) -> Option<u32>
        ensures number { MatchOption result (number 4 self.old.left.now ≡ None) (λ found. number 4 self.old.left.now ≡ Some (found, self.new.left.now)) }
        ensures len { IfSome result (λ _. length self.new.left.now + 4 ≡ length self.old.left.now) }
    {
        Some(u32::from_le_bytes(self.read_array()?))
    }

    // The first item. `as`: of a number of four bytes usize has all.
    #[tactic(auto, unfolding(crate::specs::Calls::item_in, crate::specs::Calls::number, crate::specs::Numbers::number_at))]
    fn item(&mut self) -> Option<Item<'a>>
        ensures item { MatchOption result (item_in self.old.left.now ≡ None) (λ item. item_in self.old.left.now ≡ Some (item_value item, self.new.left.now)) }
        ensures shorter { IfSome result (λ _. length self.new.left.now + 44 ≤ length self.old.left.now) }
    {
        let file_len = u16::from_le_bytes(self.read_array()?);
        let len0 = self.read_number()? as usize;
        let len1 = self.read_number()? as usize;
        let [line_len, first, step, set_count] = self.read_array::<4>()?;
        let used = u16::from_le_bytes(self.read_array()?);
        let read_only = ReadOnly {
            first: self.read_number()?,
            end: self.read_number()?,
        };
        let stop_number = self.read_number()?;
        let file = self.read_bytes(usize::from(file_len))?;
        let want = self.read_bytes(usize::from(line_len))?;
        let sets = self.read_bytes(4 * usize::from(set_count))?;
        let want_sums = Sums {
            first: u64::from_le_bytes(self.read_array()?),
            second: u64::from_le_bytes(self.read_array()?),
        };
        let lent = Lent {
            len0,
            len1,
            rule: Rule { first, step },
            read_only,
            log: log_of(used),
            stop_address: stop_address_of(stop_number),
        };
        Some(Item {
            file,
            lent,
            sets,
            want,
            want_sums,
        })
    }
}

// The items one after another. One that is cut off is given as `None`, and ends the list.
impl<'a> Iterator for Items<'a> {
    ghost use Rattle.std.specs.Iterator.{at_most};
    ghost use Rattle.replay.specs.Calls.{GivesItem};

    type Item = Option<Item<'a>>;

    ghost next_gives = { GivesItem };

    ghost remaining = { λ items. at_most (length items.left.now) };

    fn next(&mut self) -> Option<Option<Item<'a>>> {
        if self.left.is_empty() {
            return None;
        }
        let item = self.item();
        if item.is_none() {
            self.left = &[];
        }
        Some(item)
    }
}

// The whole list. An item that is cut off counts as a call that differs, and ends the list.
fn replay(bytes: &[u8]) -> Tally
    ensures { (result ≡ replay_of bytes.now) × (result.differ ≤ result.calls) × (result.calls ≤ length bytes.now) }
{
    let items = Items { left: bytes };
    let mut tally = Tally::default();
    for item in items {
        let differs = item.is_none_or(|item| item.differs());
        tally.calls += 1;
        tally.differ += u64::from(differs);
    }
    tally
}

// The part of the list in an open file; the error of a read that fails.
fn replay_file<R: Read>(file: &mut R) -> io::Result<Tally>
    ensures { IfOk result (λ tally. Replayed tally) }
{
    let mut bytes = [0u8; 65536];
    let n = input::read_full(file, &mut bytes)?;
    Ok(replay(&bytes[..n]))
}

// The part of the list in the file of this name; the error where it cannot be opened or read. The file is closed at the end.
fn replay_path<R: Files>(rt: &R, path: &str) -> io::Result<Tally>
    ensures { IfOk result (λ tally. Replayed tally) }
{
    let mut file = fs::open(rt, path)?;
    replay_file(&mut file)
}

// Two tallies together, modulo 2^64.
#[tactic(auto, unfolding(crate::specs::Numbers::both_of))]
fn both(a: Tally, b: Tally) -> Tally
    ensures { result ≡ both_of a b }
{
    Tally {
        calls: a.calls.wrapping_add(b.calls),
        differ: a.differ.wrapping_add(b.differ),
    }
}

// Replays the ten parts and prints the counts. A file that cannot be opened or read ends the program with its error, and no count is printed.
fn main(rt: HostRuntime) -> io::Result<()> {
    let mut tally = Tally::default();
    for path in PARTS {
        tally = both(tally, replay_path(&rt, path)?);
    }
    println!(rt; "{} calls, {} differ", tally.calls, tally.differ)
}
