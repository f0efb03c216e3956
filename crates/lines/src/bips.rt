// bip.read and bip.write.
use crate::answer::Answer;
use crate::scan;
use crate::scan::Words;
use bip::{BipContract, Extension, Weekdays};
use records::Refusal;

pub fn read(words: Words, record: &[u8], out: &mut Answer) -> Option<()> {
    words.ends()?;
    tell(out, bip::read(record));
    Some(())
}

// The answer to a reading.
fn tell(out: &mut Answer, read: Result<BipContract, Refusal>) {
    if let Some(value) = out.told(read) {
        answer_contract(out, value);
    }
}

fn answer_contract(out: &mut Answer, b: BipContract) {
    out.numbers(&[
        b.company,
        b.format,
        b.rfu,
        b.extra_tariff,
        b.tariff,
        b.serial,
        b.start,
        b.end,
    ]);
    answer_days(out, b.days);
    out.numbers(&[b.sam_serial, b.sam_counter]);
    match b.extension {
        Extension::Nothing => out.bytes(&[]),
        Extension::Tag(tag) => out.number(tag),
    }
    out.number(b.mac);
}

fn answer_days(out: &mut Answer, days: Weekdays) {
    out.numbers(&[
        days.monday.into(),
        days.tuesday.into(),
        days.wednesday.into(),
        days.thursday.into(),
        days.friday.into(),
        days.saturday.into(),
        days.sunday.into(),
        days.holidays.into(),
    ]);
}

pub fn write(mut words: Words, record: &mut [u8], out: &mut Answer) -> Option<()> {
    let b = BipContract {
        company: words.number()?,
        format: words.number()?,
        rfu: words.number()?,
        extra_tariff: words.number()?,
        tariff: words.number()?,
        serial: words.number()?,
        start: words.number()?,
        end: words.number()?,
        days: take_days(&mut words)?,
        sam_serial: words.number()?,
        sam_counter: words.number()?,
        extension: take_extension(&mut words)?,
        mac: words.number()?,
    };
    words.ends()?;
    let answer = bip::write(record, b);
    out.written(answer, record);
    Some(())
}

fn take_days(words: &mut Words) -> Option<Weekdays> {
    Some(Weekdays {
        monday: words.flag()?,
        tuesday: words.flag()?,
        wednesday: words.flag()?,
        thursday: words.flag()?,
        friday: words.flag()?,
        saturday: words.flag()?,
        sunday: words.flag()?,
        holidays: words.flag()?,
    })
}

// `-`, the one word that spells no bytes, or a number.
fn take_extension(words: &mut Words) -> Option<Extension> {
    match words.word()? {
        b"-" => Some(Extension::Nothing),
        tag => Some(Extension::Tag(scan::number(tag)?)),
    }
}
