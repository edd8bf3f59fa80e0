//! Document 01's campaign file: the record, the keyboard byte and the limit, and the two pages of one call, as bytes.
//! A `Cursor` goes over the bytes; each field is read from its place on, and the place moves to the field's end, or the field is turned down and the
//! place stays.
ghost use Rattle.std.specs.Prelude.{◌≡◌, length};
ghost use Rattle.run.specs.RecordNumbers.{AllWithin};
ghost use Rattle.run.specs.CampaignFile.{refusal_number, refusal_offset, number_of, greatest_values, numbers_of, page_of, parsed_of, campaign_of};
ghost use Rattle.run.specs.Code.FileAnswers.{field_of, ReadsField};

use crate::record_numbers;
use arithmetic::record::Lh5801;

// The numbers' greatest values in the file's order: A, T; X, Y, U, S, P; TM; flags; timer states, previous states and ticks; keyboard; limit.
const GREATEST: [u64; 14] = [
    255,
    255,
    65535,
    65535,
    65535,
    65535,
    65535,
    4095,
    511,
    u64::MAX,
    u64::MAX,
    u64::MAX,
    255,
    0xffff_ffff,
];

/// The bytes of a file, and a place of it.
#[derive(Clone, Copy)]
pub struct Cursor<'a> {
    pub bytes: &'a [u8],
    pub at: usize,
}

/// Why a file is turned down, each with the offset that document 01 names.
#[derive(Clone, Copy)]
pub enum Refusal {
    /// 8: the bytes end before or inside a number or page, which begins here
    Ends(usize),
    /// 9: the number that begins here is not shortest, is over ten groups, or is above its field's greatest
    Unfit(usize),
    /// 10: bytes are left over, and this is the first
    LeftOver(usize),
}

/// What the file asks of the call: its keyboard byte and its limit.
#[derive(Clone, Copy)]
pub struct Asked {
    pub keyboard: u8,
    pub limit: u32,
}

/// Where a page's bytes begin in the file, and how many they are.
#[derive(Clone, Copy)]
pub struct PagePlace {
    pub at: usize,
    pub len: usize,
}

/// What a campaign file says: the record, what is asked of the call, and where the two pages' bytes lie in the file.
#[derive(Clone, Copy)]
pub struct Parsed {
    pub cpu: Lh5801,
    pub asked: Asked,
    pub page0: PagePlace,
    pub page1: PagePlace,
}

impl Refusal {
    /// Document 01's number for a refusal.
    pub fn number(self) -> u8
        ensures { result ≡ refusal_number self }
    {
        match self {
            Refusal::Ends(_) => 8,
            Refusal::Unfit(_) => 9,
            Refusal::LeftOver(_) => 10,
        }
    }

    /// Its offset.
    pub fn offset(self) -> usize
        ensures { result ≡ refusal_offset self }
    {
        match self {
            Refusal::Ends(at) | Refusal::Unfit(at) | Refusal::LeftOver(at) => at,
        }
    }
}

impl Cursor<'_> {
    /// One number: groups of seven bits, the lowest first, the top bit set on all but the last. It has to be written in the shortest way and
    /// to be at most its field's greatest value.
    pub fn number(&mut self, greatest: u64) -> Result<u64, Refusal>
        ensures { ReadsField (number_of greatest) self result }
    {
        let begin = self.at;
        let Some(rest) = self.bytes.get(begin..) else {
            return Err(Refusal::Ends(begin));
        };
        let mut weight = 1;
        let mut value = 0;
        for (count, &byte) in rest.iter().enumerate() {
            let group = u64::from(byte);
            // The tenth group weighs 2^63: only 1 is neither longer than needed nor too great.
            if (count == 9) & (group != 1) {
                return Err(Refusal::Unfit(begin));
            }
            value += weight * (group % 128);
            if group < 128 {
                let shortest = (count == 0) | (group != 0);
                if shortest && value <= greatest {
                    self.at = begin + count + 1;
                    return Ok(value);
                }
                return Err(Refusal::Unfit(begin));
            }
            weight *= 128;
        }
        Err(Refusal::Ends(begin))
    }

    /// The fourteen numbers, one after another: each takes the place of its field's greatest value.
    pub fn numbers(&mut self) -> Result<[u64; 14], Refusal>
        ensures { ReadsField (numbers_of greatest_values) self result }
    {
        let mut cursor = *self;
        let mut values = GREATEST;
        for value in values.iter_mut() {
            *value = cursor.number(*value)?;
        }
        *self = cursor;
        Ok(values)
    }

    /// A page's length, then so many bytes.
    #[tactic(auto, using(crate::proofs::CampaignFile::Number::number_within), unfolding(crate::specs::CampaignFile::page_of, crate::specs::CampaignFile::bytes_of))]
    pub fn page(&mut self) -> Result<PagePlace, Refusal>
        ensures { ReadsField page_of self result }
    {
        let mut cursor = *self;
        let len = cursor.number(16384)? as usize;
        let at = cursor.at;
        if self.bytes.len() < at + len {
            return Err(Refusal::Ends(at));
        }
        self.at = at + len;
        Ok(PagePlace { at, len })
    }
}

// What the numbers and the pages' places say. `as`: each number is within its field, so that a try_from could not fail.
fn parsed_of(values: &[u64; 14], page0: PagePlace, page1: PagePlace) -> Parsed
    requires { AllWithin greatest_values values.now }
    ensures { result ≡ parsed_of values.now page0 page1 }
{
    let cpu = record_numbers::record_of(values);
    let asked = Asked {
        keyboard: values[12] as u8,
        limit: values[13] as u32,
    };
    Parsed {
        cpu,
        asked,
        page0,
        page1,
    }
}

/// A whole campaign file: its fields in order, and then no byte more.
#[tactic(auto, using(crate::proofs::CampaignFile::InTurn::page_read, crate::proofs::CampaignFile::InTurn::numbers_within), unfolding(crate::specs::CampaignFile::campaign_of, crate::specs::CampaignFile::ended))]
pub fn read_campaign(bytes: &[u8]) -> Result<Parsed, Refusal>
    ensures { campaign_of bytes.now 0 ≡ field_of result (length bytes.now) }
{
    let mut cursor = Cursor { bytes, at: 0 };
    let values = cursor.numbers()?;
    let page0 = cursor.page()?;
    let page1 = cursor.page()?;
    if cursor.at < bytes.len() {
        return Err(Refusal::LeftOver(cursor.at));
    }
    Ok(parsed_of(&values, page0, page1))
}
