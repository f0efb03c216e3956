// The contract record of the neighbouring region's BIP cards: 29 bytes, thirteen fields at fixed offsets, high byte first.
#![tactic(auto)]

ghost use Rattle.std.specs.Prelude.{◌≡◌, [], length};
ghost use Rattle.rows.specs.Inner.Standing.{stand};
ghost use Rattle.rows.specs.Inner.Line.{start, Given};
ghost use Rattle.records.specs.Answer.{answer_of, heard};
ghost use Rattle.bip.specs.Table.{bip};
ghost use Rattle.bip.specs.Value.{days_of, byte_of, extension_of, tag_of, complement, numbers_of, bip_told, bip_read, bip_written};
ghost use Rattle.bip.specs.Inner.Whole.{TakenWhole};

use records::{BITS, BYTES, Refusal};
use rows::{Cursor, When, put, take};

// The days on which a contract is valid.
#[derive(Clone, Copy, Debug, PartialEq, Eq)]
pub struct Weekdays {
    pub monday: bool,
    pub tuesday: bool,
    pub wednesday: bool,
    pub thursday: bool,
    pub friday: bool,
    pub saturday: bool,
    pub sunday: bool,
    pub holidays: bool,
}

impl Weekdays {
    // Those of a byte: Monday is its lowest bit. Not a From: that would be public and take every u32, and be no plainer.
    fn of(byte: u32) -> Weekdays
        ensures { result ≡ days_of byte }
    {
        Weekdays {
            monday: byte % 2 == 1,
            tuesday: byte / 2 % 2 == 1,
            wednesday: byte / 4 % 2 == 1,
            thursday: byte / 8 % 2 == 1,
            friday: byte / 16 % 2 == 1,
            saturday: byte / 32 % 2 == 1,
            sunday: byte / 64 % 2 == 1,
            holidays: byte / 128 % 2 == 1,
        }
    }

    // The byte of those days. Not a From either.
    fn byte(self) -> u32
        ensures { result ≡ byte_of self }
    {
        u32::from(self.monday)
            + 2 * u32::from(self.tuesday)
            + 4 * u32::from(self.wednesday)
            + 8 * u32::from(self.thursday)
            + 16 * u32::from(self.friday)
            + 32 * u32::from(self.saturday)
            + 64 * u32::from(self.sunday)
            + 128 * u32::from(self.holidays)
    }
}

// What the extension tag says of further records. No Option: the request Q-4 orders an enum of its own (docs/DECISIONS.md, "The forms").
#[derive(Clone, Copy, Debug, PartialEq, Eq)]
pub enum Extension {
    Nothing,
    Tag(u32),
}

impl Extension {
    // The tag of a contract without further records.
    const NO_TAG: u32 = 0xA000;

    // A number too wide for a tag's two bytes.
    const TOO_WIDE: u32 = 65536;

    fn of(tag: u32) -> Extension
        ensures { result ≡ extension_of tag }
    {
        if tag == Extension::NO_TAG {
            return Extension::Nothing;
        }
        Extension::Tag(tag)
    }

    // The number for the record's field. A000h is no other tag, and so has none that fits.
    fn tag(self) -> u32
        ensures { result ≡ tag_of self }
    {
        match self {
            Extension::Nothing => Extension::NO_TAG,
            Extension::Tag(Extension::NO_TAG) => Extension::TOO_WIDE,
            Extension::Tag(tag) => tag,
        }
    }
}

#[derive(Clone, Copy, Debug, PartialEq, Eq)]
pub struct BipContract {
    pub company: u32,
    pub format: u32,
    pub rfu: u32,
    pub extra_tariff: u32,
    pub tariff: u32,
    pub serial: u32,
    pub start: u32, // minutes since 1/1/2005, 0:00, as the end
    pub end: u32,
    pub days: Weekdays,
    pub sam_serial: u32,
    pub sam_counter: u32,
    pub extension: Extension,
    pub mac: u32,
}

// One more than the last date of three bytes.
const DATES: u32 = 1 << 24;

// One's complement over three bytes: what stands in the record for a date, and the date for which it stands there.
fn complement(date: u32) -> u32
    ensures { result ≡ complement date }
{
    if date < DATES {
        return DATES - 1 - date;
    }
    date
}

// The contract in a lent record. All 29 bytes are of fields that take every number, so that nothing but their count is refused.
pub fn read(bytes: &[u8]) -> Result<BipContract, Refusal>
    ensures { bip_told (heard result) ≡ bip_told (bip_read bytes.now) }
{
    if bytes.len() != BYTES {
        return Err(Refusal::WRONG_LENGTH);
    }
    let mut words = [0u64; 8];
    bits::words(bytes, &mut words);
    Ok(take_fields(&words))
}

fn take_fields(words: &[u64]) -> BipContract
    requires { length words.now ≡ 8 }
    ensures { TakenWhole words.now result }
{
    let company = take::number(words, BITS, Cursor::START, When::Always, 8);
    let format = take::number(words, BITS, company, When::Always, 8);
    let rfu = take::number(words, BITS, format, When::Always, 8);
    let extra_tariff = take::number(words, BITS, rfu, When::Always, 8);
    let tariff = take::number(words, BITS, extra_tariff, When::Always, 16);
    let serial = take::number(words, BITS, tariff, When::Always, 24);
    let start = take::number(words, BITS, serial, When::Always, 24);
    let end = take::number(words, BITS, start, When::Always, 24);
    let days = take::number(words, BITS, end, When::Always, 8);
    let sam_serial = take::number(words, BITS, days, When::Always, 32);
    let sam_counter = take::number(words, BITS, sam_serial, When::Always, 24);
    let tag = take::number(words, BITS, sam_counter, When::Always, 16);
    let mac = take::number(words, BITS, tag, When::Always, 32);
    BipContract {
        company: company.number,
        format: format.number,
        rfu: rfu.number,
        extra_tariff: extra_tariff.number,
        tariff: tariff.number,
        serial: serial.number,
        start: complement(start.number),
        end: complement(end.number),
        days: Weekdays::of(days.number),
        sam_serial: sam_serial.number,
        sam_counter: sam_counter.number,
        extension: Extension::of(tag.number),
        mac: mac.number,
    }
}

// Writes a contract to a lent record, all of it; refused, the record is as it was.
pub fn write(bytes: &mut [u8], b: BipContract) -> Result<(), Refusal>
    ensures { record { answer = answer_of result; bytes = bytes.new } ≡ bip_written bytes.old b }
{
    if bytes.len() != BYTES {
        return Err(Refusal::WRONG_LENGTH);
    }
    let mut draft = [0u64; 9];
    let last = put_fields(&mut draft, b);
    put::end(&draft, last, bytes);
    Refusal::met(last)
}

fn put_fields(draft: &mut [u64], b: BipContract) -> Cursor
    requires { length draft.old ≡ 9 }
    ensures { Given 232 (numbers_of b) bip [] draft.old start (numbers_of b) draft.new (stand result) }
{
    let c = put::number(draft, BITS, Cursor::START, When::Always, 8, b.company);
    let c = put::number(draft, BITS, c, When::Always, 8, b.format);
    let c = put::number(draft, BITS, c, When::Always, 8, b.rfu);
    let c = put::number(draft, BITS, c, When::Always, 8, b.extra_tariff);
    let c = put::number(draft, BITS, c, When::Always, 16, b.tariff);
    let c = put::number(draft, BITS, c, When::Always, 24, b.serial);
    let c = put::number(draft, BITS, c, When::Always, 24, complement(b.start));
    let c = put::number(draft, BITS, c, When::Always, 24, complement(b.end));
    let c = put::number(draft, BITS, c, When::Always, 8, b.days.byte());
    let c = put::number(draft, BITS, c, When::Always, 32, b.sam_serial);
    let c = put::number(draft, BITS, c, When::Always, 24, b.sam_counter);
    let c = put::number(draft, BITS, c, When::Always, 16, b.extension.tag());
    put::number(draft, BITS, c, When::Always, 32, b.mac)
}
