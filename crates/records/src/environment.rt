// Environment.
ghost use Rattle.std.specs.Prelude.{◌≡◌, [], length};
ghost use Rattle.rows.specs.Inner.Standing.{stand};
ghost use Rattle.rows.specs.Inner.Line.{start, Taken, Given};
ghost use Rattle.rows.specs.Margin.{words_of};
ghost use Rattle.rows.specs.Table.Environment.{environment};
ghost use Rattle.records.specs.Answer.{answer_of, heard};
ghost use Rattle.records.specs.Environment.{environment_told, environment_read, environment_written, numbers_of, environment_of};

use crate::{BITS, BYTES, Refusal};
use rows::margin::Margin;
use rows::take::Part;
use rows::{Cursor, When, margin, put, take};

#[derive(Clone, Copy, Debug, PartialEq, Eq)]
pub struct Environment {
    pub version: u32,
    pub bitmap: u32,
    pub network: u32,
    pub issuer: u32,
    pub end_date: u32,
    pub pay_method: u32,
    pub authenticator: u32,
    pub select_list: u32,
    pub data_bitmap: u32,
    pub card_status: u32,
    pub margin: Margin,
}

impl Environment {
    // Its numbers in card order. No From, here and below: docs/CONTRACTS.md promises the names.
    pub fn numbers(self) -> [u32; 10]
        ensures { result ≡ numbers_of self }
    {
        [
            self.version,
            self.bitmap,
            self.network,
            self.issuer,
            self.end_date,
            self.pay_method,
            self.authenticator,
            self.select_list,
            self.data_bitmap,
            self.card_status,
        ]
    }

    // The Environment of such numbers, and a margin.
    pub fn of(numbers: [u32; 10], margin: Margin) -> Environment
        ensures { result ≡ environment_of numbers (words_of margin) }
    {
        Environment {
            version: numbers[0],
            bitmap: numbers[1],
            network: numbers[2],
            issuer: numbers[3],
            end_date: numbers[4],
            pay_method: numbers[5],
            authenticator: numbers[6],
            select_list: numbers[7],
            data_bitmap: numbers[8],
            card_status: numbers[9],
            margin,
        }
    }
}

// The Environment in a lent record.
pub fn read(bytes: &[u8]) -> Result<Environment, Refusal>
    ensures { environment_told (heard result) ≡ environment_told (environment_read bytes.now) }
{
    if bytes.len() != BYTES {
        return Err(Refusal::WRONG_LENGTH);
    }
    let mut words = [0u64; 8];
    bits::words(&bytes[..], &mut words);
    let fields = take_fields(&words);
    let last = fields.last;
    Refusal::met(last)?;
    let mut value = fields.value;
    value.margin = margin::take(&words, last.at);
    Ok(value)
}

fn take_fields(words: &[u64]) -> Part<Environment>
    requires { length words.now ≡ 8 }
    ensures { Taken words.now 232 environment [] start (numbers_of result.value) (stand result.last) }
{
    let version = take::number(words, BITS, Cursor::START, When::Always, 6);
    let bitmap = take::number(words, BITS, version, When::Always, 7);
    let network = take::number(words, BITS, bitmap, When::Bit(bitmap.number, 0), 24);
    let issuer = take::number(words, BITS, network, When::Bit(bitmap.number, 1), 8);
    let end_date = take::number(words, BITS, issuer, When::Bit(bitmap.number, 2), 14);
    let pay_method = take::number(words, BITS, end_date, When::Bit(bitmap.number, 3), 11);
    let authenticator = take::number(words, BITS, pay_method, When::Bit(bitmap.number, 4), 16);
    let select_list = take::number(words, BITS, authenticator, When::Bit(bitmap.number, 5), 32);
    let data = take::env_data(words, BITS, select_list, When::Bit(bitmap.number, 6));
    let card_status = take::number(words, BITS, data, When::Bit(data.number, 0), 1);
    Part {
        value: Environment {
            version: version.number,
            bitmap: bitmap.number,
            network: network.number,
            issuer: issuer.number,
            end_date: end_date.number,
            pay_method: pay_method.number,
            authenticator: authenticator.number,
            select_list: select_list.number,
            data_bitmap: data.number,
            card_status: card_status.number,
            margin: Margin::NONE,
        },
        last: card_status,
    }
}

// Writes an Environment to a lent record, all of it; refused, the record is as it was.
pub fn write(bytes: &mut [u8], e: Environment) -> Result<(), Refusal>
    ensures { record { answer = answer_of result; bytes = bytes.new } ≡ environment_written bytes.old e }
{
    if bytes.len() != BYTES {
        return Err(Refusal::WRONG_LENGTH);
    }
    let mut draft = [0u64; 9];
    let last = put_fields(&mut draft, e);
    Refusal::met(last)?;
    let end = margin::put(&mut draft, BITS, last, e.margin);
    put::end(&draft, end, bytes);
    Refusal::met(end)
}

fn put_fields(draft: &mut [u64], e: Environment) -> Cursor
    requires { length draft.old ≡ 9 }
    ensures { Given 232 (numbers_of e) environment [] draft.old start (numbers_of e) draft.new (stand result) }
{
    let c = put::number(draft, BITS, Cursor::START, When::Always, 6, e.version);
    let c = put::number(draft, BITS, c, When::Always, 7, e.bitmap);
    let c = put::number(draft, BITS, c, When::Bit(e.bitmap, 0), 24, e.network);
    let c = put::number(draft, BITS, c, When::Bit(e.bitmap, 1), 8, e.issuer);
    let c = put::number(draft, BITS, c, When::Bit(e.bitmap, 2), 14, e.end_date);
    let c = put::number(draft, BITS, c, When::Bit(e.bitmap, 3), 11, e.pay_method);
    let c = put::number(draft, BITS, c, When::Bit(e.bitmap, 4), 16, e.authenticator);
    let c = put::number(draft, BITS, c, When::Bit(e.bitmap, 5), 32, e.select_list);
    let c = put::env_data(draft, BITS, c, When::Bit(e.bitmap, 6), e.data_bitmap);
    let c = put::number(
        draft,
        BITS,
        c,
        When::Bit(e.data_bitmap, 0),
        1,
        e.card_status,
    );
    c
}
