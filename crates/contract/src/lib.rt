// Contract, of type 42h or 50h.
#![tactic(auto, using(rows::proofs::Ready::took_ready, rows::proofs::Ready::gave_ready, rows::proofs::Ready::gave_long))]

ghost use Rattle.std.specs.Prelude.{◌≡◌, Bool, List, [], ◌∷◌, ◌++◌, ℕ, ◌+◌, ◌≤◌, length, take, drop};
ghost use Rattle.rows.specs.Inner.Step.{Ready, Drafted};
ghost use Rattle.rows.specs.Inner.Standing.{stand};
ghost use Rattle.rows.specs.Inner.Line.{start, Taken, Given};
ghost use Rattle.rows.specs.Table.Contract.{head, data42, data50};
ghost use Rattle.contract.specs.Contract.{behind, head_numbers, numbers42, numbers50, data42_of, data50_of, head_of, data_of, contract_of, follow, known, with_rest, agrees, carnet, urban, contract_told, contract_read, contract_written};
ghost use Rattle.bits.specs.Bits.{cut, cleared};
ghost use Rattle.rows.specs.Margin.{words_of};
ghost use Rattle.records.specs.Answer.{answer_of, heard, from};
ghost use Rattle.contract.specs.Inner.Steps.{disagreed, PutOf};

use records::{BITS, BYTES, LAST_MINUTE, Refusal, Why};
use rows::margin::Margin;
use rows::take::Part;
use rows::{Cursor, When, margin, put, take};

// The data of type 42h.
#[derive(Clone, Copy, Debug, Default, PartialEq, Eq)]
pub struct Data42 {
    pub pay_method: u32,
    pub price: u32,
    pub sale_date: u32,
    pub sale_minute: u32,
    pub agent: u32,
    pub device: u32,
    pub receipt: u32,
    pub passengers: u32,
    pub inhibition_end: u32,
}

// The data of type 50h.
#[derive(Clone, Copy, Debug, Default, PartialEq, Eq)]
pub struct Data50 {
    pub end_date: u32,
    pub grey_list: u32,
    pub chrono: u32,
    pub flag: u32,
    pub bitmap: u32,
    pub agent: u32,
    pub origin: u32,
    pub destination: u32,
    pub via: u32,
    pub token1: u32,
    pub token2: u32,
    pub autoload_start: u32,
    pub autoload_end: u32,
    pub balance: u32,
    pub last_debit: u32,
    pub purse: u32,
    pub debit: u32,
    pub passengers: u32,
    pub period_end: u32,
    pub period_balance: u32,
    pub zone1: u32,
    pub zone2: u32,
    pub zone3: u32,
    pub sections: u32,
    pub sections_left: u32,
    pub stop1: u32,
    pub stop2: u32,
    pub stop3: u32,
    pub stop4: u32,
    pub line1: u32,
    pub line2: u32,
    pub weekly: u32,
    pub start_date: u32,
    pub end_minute: u32,
    pub token: u32,
    pub intermodal: u32,
}

// The data behind the head.
#[derive(Clone, Copy, Debug, PartialEq, Eq)]
pub enum Data {
    Nothing,
    Carnet(Data42),
    Urban(Data50),
}

#[derive(Clone, Copy, Debug, PartialEq, Eq)]
pub struct Contract {
    pub bitmap: u32,
    pub provider: u32,
    pub tariff: u32,
    pub serial: u32,
    pub class: u32,
    pub validity_bitmap: u32,
    pub start_date: u32,
    pub end_date: u32,
    pub status: u32,
    pub data: Data,
    pub margin: Margin,
}

impl Contract {
    // The two types, 42h and 50h.
    pub const CARNET: u32 = 0x42;

    pub const URBAN: u32 = 0x50;

    // The rank of the first field of the data, by which they are named as a whole, and the count of a walk that has come to it.
    const DATA_FIELD: u32 = 9;

    const COUNT_AT_DATA: u32 = Contract::DATA_FIELD + 1;

    // The numbers of its head, in card order. No From, here and below: docs/CONTRACTS.md promises the names.
    pub fn head_numbers(self) -> [u32; 9]
        ensures { result ≡ head_numbers self }
    {
        [
            self.bitmap,
            self.provider,
            self.tariff,
            self.serial,
            self.class,
            self.validity_bitmap,
            self.start_date,
            self.end_date,
            self.status,
        ]
    }

    // The contract of a head of such numbers, data and a margin.
    pub fn of_head(head: [u32; 9], data: Data, margin: Margin) -> Contract
        ensures { result ≡ with_rest (head_of head) «data» margin }
    {
        Contract {
            bitmap: head[0],
            provider: head[1],
            tariff: head[2],
            serial: head[3],
            class: head[4],
            validity_bitmap: head[5],
            start_date: head[6],
            end_date: head[7],
            status: head[8],
            data,
            margin,
        }
    }

    // The contract of a type, of the numbers of its head and then its data, and a margin.
    pub fn of(kind: u32, numbers: [u32; 45], margin: Margin) -> Contract
        ensures { result ≡ contract_of kind numbers (words_of margin) }
    {
        let head = part(&numbers, 0);
        Contract::of_head(head, Data::of(kind, numbers), margin)
    }
}

impl Data {
    // The data of a type, where they follow, behind the nine numbers of the head.
    fn of(kind: u32, numbers: [u32; 45]) -> Data
        ensures { result ≡ data_of kind numbers }
    {
        if !follow(numbers[0]) {
            return Data::Nothing;
        }
        if kind == Contract::CARNET {
            return Data::Carnet(Data42::of(part(&numbers, 9)));
        }
        Data::Urban(Data50::of(part(&numbers, 9)))
    }
}

// The N numbers from number i on.
#[tactic(auto, using(records::proofs::Inverse::named_part))]
fn part<const N: usize>(numbers: &[u32; 45], i: usize) -> [u32; N]
    requires { i + N ≤ 45 }
    ensures { result ≡ from i N numbers.now }
{
    let mut part = [0; N];
    part.copy_from_slice(&numbers[i..i + N]);
    part
}

impl Data42 {
    // Their numbers in card order. No From, here and below: docs/CONTRACTS.md promises the names.
    pub fn numbers(self) -> [u32; 9]
        ensures { result ≡ numbers42 self }
    {
        [
            self.pay_method,
            self.price,
            self.sale_date,
            self.sale_minute,
            self.agent,
            self.device,
            self.receipt,
            self.passengers,
            self.inhibition_end,
        ]
    }

    pub fn of(numbers: [u32; 9]) -> Data42
        ensures { result ≡ data42_of numbers }
    {
        Data42 {
            pay_method: numbers[0],
            price: numbers[1],
            sale_date: numbers[2],
            sale_minute: numbers[3],
            agent: numbers[4],
            device: numbers[5],
            receipt: numbers[6],
            passengers: numbers[7],
            inhibition_end: numbers[8],
        }
    }
}

impl Data50 {
    // Their numbers in card order. No From, here and below: docs/CONTRACTS.md promises the names.
    pub fn numbers(self) -> [u32; 36]
        ensures { result ≡ numbers50 self }
    {
        [
            self.end_date,
            self.grey_list,
            self.chrono,
            self.flag,
            self.bitmap,
            self.agent,
            self.origin,
            self.destination,
            self.via,
            self.token1,
            self.token2,
            self.autoload_start,
            self.autoload_end,
            self.balance,
            self.last_debit,
            self.purse,
            self.debit,
            self.passengers,
            self.period_end,
            self.period_balance,
            self.zone1,
            self.zone2,
            self.zone3,
            self.sections,
            self.sections_left,
            self.stop1,
            self.stop2,
            self.stop3,
            self.stop4,
            self.line1,
            self.line2,
            self.weekly,
            self.start_date,
            self.end_minute,
            self.token,
            self.intermodal,
        ]
    }

    pub fn of(numbers: [u32; 36]) -> Data50
        ensures { result ≡ data50_of numbers }
    {
        Data50 {
            end_date: numbers[0],
            grey_list: numbers[1],
            chrono: numbers[2],
            flag: numbers[3],
            bitmap: numbers[4],
            agent: numbers[5],
            origin: numbers[6],
            destination: numbers[7],
            via: numbers[8],
            token1: numbers[9],
            token2: numbers[10],
            autoload_start: numbers[11],
            autoload_end: numbers[12],
            balance: numbers[13],
            last_debit: numbers[14],
            purse: numbers[15],
            debit: numbers[16],
            passengers: numbers[17],
            period_end: numbers[18],
            period_balance: numbers[19],
            zone1: numbers[20],
            zone2: numbers[21],
            zone3: numbers[22],
            sections: numbers[23],
            sections_left: numbers[24],
            stop1: numbers[25],
            stop2: numbers[26],
            stop3: numbers[27],
            stop4: numbers[28],
            line1: numbers[29],
            line2: numbers[30],
            weekly: numbers[31],
            start_date: numbers[32],
            end_minute: numbers[33],
            token: numbers[34],
            intermodal: numbers[35],
        }
    }
}

// Whether there is such a type. A kind is a u32 and no enum: document 01 has refusal 3 for every other number.
pub fn known(kind: u32) -> bool
    ensures { result ≡ known kind }
{
    kind == Contract::CARNET || kind == Contract::URBAN
}

// The contract of a type in a lent record.
pub fn read(bytes: &[u8], kind: u32) -> Result<Contract, Refusal>
    ensures { contract_told (heard result) ≡ contract_told (contract_read kind bytes.now) }
{
    if bytes.len() != BYTES {
        return Err(Refusal::WRONG_LENGTH);
    }
    if !known(kind) {
        return Err(Refusal::UNKNOWN_TYPE);
    }
    let mut words = [0u64; 8];
    bits::words(&bytes[..], &mut words);
    let front = take_head(&words);
    let head = front.value;
    // Each case makes its contract: made at one place, of whichever data there are, it took 42h 469 instructions, not 385.
    let last = front.last;
    if !follow(head.bitmap) {
        Refusal::met(last)?;
        return Ok(whole(head, Data::Nothing, &words, last.at));
    }
    if kind == Contract::CARNET {
        let carnet = take_carnet(&words, last, head.bitmap);
        let last = carnet.last;
        Refusal::met(last)?;
        return Ok(whole(head, Data::Carnet(carnet.value), &words, last.at));
    }
    let urban = take_urban(&words, last, head.bitmap);
    let last = urban.last;
    Refusal::met(last)?;
    Ok(whole(head, Data::Urban(urban.value), &words, last.at))
}

// The contract of a head and data, with what stands from bit at on as its margin.
fn whole(head: Contract, data: Data, words: &[u64], at: u32) -> Contract
    requires { length words.now ≡ 8 }
    ensures own { result ≡ with_rest head «data» result.margin }
    ensures margin { (bs : List Bool) → words.now ≡ cut 32 64 8 bs → words_of result.margin ≡ cut 64 64 4 (cleared at bs) }
{
    Contract {
        data,
        margin: margin::take(words, at),
        ..head
    }
}

// Whether the data follow the head: bit [6] of its bitmap.
fn follow(bitmap: u32) -> bool
    ensures { result ≡ follow bitmap }
{
    (bitmap >> 6) % 2 == 1
}

fn take_head(words: &[u64]) -> Part<Contract>
    requires { length words.now ≡ 8 }
    ensures { Taken words.now 232 head [] start (head_numbers result.value) (stand result.last) }
{
    let bitmap = take::number(words, BITS, Cursor::START, When::Always, 7);
    let provider = take::number(words, BITS, bitmap, When::Bit(bitmap.number, 0), 8);
    let tariff = take::number(words, BITS, provider, When::Bit(bitmap.number, 1), 16);
    let serial = take::number(words, BITS, tariff, When::Bit(bitmap.number, 2), 32);
    let class = take::number(words, BITS, serial, When::Bit(bitmap.number, 3), 8);
    let validity = take::number(words, BITS, class, When::Bit(bitmap.number, 4), 2);
    let start_date = take::number(words, BITS, validity, When::Bit(validity.number, 0), 14);
    let end_date = take::number(words, BITS, start_date, When::Bit(validity.number, 1), 14);
    let status = take::number(words, BITS, end_date, When::Bit(bitmap.number, 5), 8);
    Part {
        value: Contract {
            bitmap: bitmap.number,
            provider: provider.number,
            tariff: tariff.number,
            serial: serial.number,
            class: class.number,
            validity_bitmap: validity.number,
            start_date: start_date.number,
            end_date: end_date.number,
            status: status.number,
            data: Data::Nothing,
            margin: Margin::NONE,
        },
        last: status,
    }
}

fn take_carnet(words: &[u64], c: Cursor, bitmap: u32) -> Part<Data42>
    requires { Ready words.now 232 (stand c) }
    ensures { (h : Contract) → Taken words.now 232 data42 (bitmap ∷ behind h) (stand c) (bitmap ∷ behind h ++ numbers42 result.value) (stand result.last) }
{
    let follow = When::Bit(bitmap, 6);
    let pay_method = take::number(words, BITS, c, follow, 11);
    let price = take::number(words, BITS, pay_method, follow, 16);
    let sale_date = take::number(words, BITS, price, follow, 14);
    let sale_minute = take::at_most(words, BITS, sale_date, follow, 11, LAST_MINUTE);
    let agent = take::number(words, BITS, sale_minute, follow, 8);
    let device = take::number(words, BITS, agent, follow, 16);
    let receipt = take::number(words, BITS, device, follow, 1);
    let passengers = take::number(words, BITS, receipt, follow, 8);
    let inhibition_end = take::number(words, BITS, passengers, follow, 14);
    Part {
        value: Data42 {
            pay_method: pay_method.number,
            price: price.number,
            sale_date: sale_date.number,
            sale_minute: sale_minute.number,
            agent: agent.number,
            device: device.number,
            receipt: receipt.number,
            passengers: passengers.number,
            inhibition_end: inhibition_end.number,
        },
        last: inhibition_end,
    }
}

fn take_urban(words: &[u64], c: Cursor, bitmap: u32) -> Part<Data50>
    requires { Ready words.now 232 (stand c) }
    ensures { (h : Contract) → Taken words.now 232 data50 (bitmap ∷ behind h) (stand c) (bitmap ∷ behind h ++ numbers50 result.value) (stand result.last) }
{
    let terms = take_terms(words, c, bitmap);
    let purse = take_purse(words, terms);
    let zones = take_zones(words, purse);
    let stops = take_stops(words, zones);
    take_limits(words, stops)
}

// The numbers that are always there, and groups [0] and [1].
fn take_terms(words: &[u64], c: Cursor, bitmap: u32) -> Part<Data50>
    requires { Ready words.now 232 (stand c) }
    ensures { (h : Contract) → Taken words.now 232 (take 9 data50) (bitmap ∷ behind h) (stand c) (bitmap ∷ behind h ++ take 9 (numbers50 result.value)) (stand result.last) }
{
    let follow = When::Bit(bitmap, 6);
    let end_date = take::number(words, BITS, c, follow, 14);
    let grey_list = take::number(words, BITS, end_date, follow, 14);
    let chrono = take::number(words, BITS, grey_list, follow, 16);
    let flag = take::number(words, BITS, chrono, follow, 2);
    let groups = take::number(words, BITS, flag, follow, 16);
    let agent = take::number(words, BITS, groups, When::Bit(groups.number, 0), 8);
    let origin = take::number(words, BITS, agent, When::Bit(groups.number, 1), 14);
    let destination = take::number(words, BITS, origin, When::Bit(groups.number, 1), 14);
    let via = take::number(words, BITS, destination, When::Bit(groups.number, 1), 14);
    Part {
        value: Data50 {
            end_date: end_date.number,
            grey_list: grey_list.number,
            chrono: chrono.number,
            flag: flag.number,
            bitmap: groups.number,
            agent: agent.number,
            origin: origin.number,
            destination: destination.number,
            via: via.number,
            ..Data50::default()
        },
        last: via,
    }
}

// Groups [2] to [5].
fn take_purse(words: &[u64], terms: Part<Data50>) -> Part<Data50>
    requires { Ready words.now 232 (stand terms.last) }
    ensures { (n : ℕ) (h : Contract) → Taken words.now 232 (take 9 (drop 9 data50)) (n ∷ behind h ++ take 9 (numbers50 terms.value)) (stand terms.last) (n ∷ behind h ++ take 18 (numbers50 result.value)) (stand result.last) }
{
    let groups = terms.value.bitmap;
    let token1 = take::number(words, BITS, terms.last, When::Bit(groups, 2), 16);
    let token2 = take::number(words, BITS, token1, When::Bit(groups, 2), 16);
    let autoload_start = take::number(words, BITS, token2, When::Bit(groups, 2), 14);
    let autoload_end = take::number(words, BITS, autoload_start, When::Bit(groups, 2), 14);
    let balance = take::number(words, BITS, autoload_end, When::Bit(groups, 3), 8);
    let last_debit = take::number(words, BITS, balance, When::Bit(groups, 3), 5);
    let purse = take::number(words, BITS, last_debit, When::Bit(groups, 4), 19);
    let debit = take::number(words, BITS, purse, When::Bit(groups, 4), 16);
    let passengers = take::number(words, BITS, debit, When::Bit(groups, 5), 6);
    Part {
        value: Data50 {
            token1: token1.number,
            token2: token2.number,
            autoload_start: autoload_start.number,
            autoload_end: autoload_end.number,
            balance: balance.number,
            last_debit: last_debit.number,
            purse: purse.number,
            debit: debit.number,
            passengers: passengers.number,
            ..terms.value
        },
        last: passengers,
    }
}

// Groups [6] to [8].
fn take_zones(words: &[u64], purse: Part<Data50>) -> Part<Data50>
    requires { Ready words.now 232 (stand purse.last) }
    ensures { (n : ℕ) (h : Contract) → Taken words.now 232 (take 7 (drop 18 data50)) (n ∷ behind h ++ take 18 (numbers50 purse.value)) (stand purse.last) (n ∷ behind h ++ take 25 (numbers50 result.value)) (stand result.last) }
{
    let groups = purse.value.bitmap;
    let period_end = take::number(words, BITS, purse.last, When::Bit(groups, 6), 14);
    let period_balance = take::number(words, BITS, period_end, When::Bit(groups, 6), 6);
    let zone1 = take::number(words, BITS, period_balance, When::Bit(groups, 7), 6);
    let zone2 = take::number(words, BITS, zone1, When::Bit(groups, 7), 6);
    let zone3 = take::number(words, BITS, zone2, When::Bit(groups, 7), 6);
    let sections = take::number(words, BITS, zone3, When::Bit(groups, 8), 6);
    let sections_left = take::number(words, BITS, sections, When::Bit(groups, 8), 6);
    Part {
        value: Data50 {
            period_end: period_end.number,
            period_balance: period_balance.number,
            zone1: zone1.number,
            zone2: zone2.number,
            zone3: zone3.number,
            sections: sections.number,
            sections_left: sections_left.number,
            ..purse.value
        },
        last: sections_left,
    }
}

// Groups [9] and [10].
fn take_stops(words: &[u64], zones: Part<Data50>) -> Part<Data50>
    requires { Ready words.now 232 (stand zones.last) }
    ensures { (n : ℕ) (h : Contract) → Taken words.now 232 (take 6 (drop 25 data50)) (n ∷ behind h ++ take 25 (numbers50 zones.value)) (stand zones.last) (n ∷ behind h ++ take 31 (numbers50 result.value)) (stand result.last) }
{
    let groups = zones.value.bitmap;
    let stop1 = take::number(words, BITS, zones.last, When::Bit(groups, 9), 14);
    let stop2 = take::number(words, BITS, stop1, When::Bit(groups, 9), 14);
    let stop3 = take::number(words, BITS, stop2, When::Bit(groups, 9), 14);
    let stop4 = take::number(words, BITS, stop3, When::Bit(groups, 9), 14);
    let line1 = take::number(words, BITS, stop4, When::Bit(groups, 10), 14);
    let line2 = take::number(words, BITS, line1, When::Bit(groups, 10), 14);
    Part {
        value: Data50 {
            stop1: stop1.number,
            stop2: stop2.number,
            stop3: stop3.number,
            stop4: stop4.number,
            line1: line1.number,
            line2: line2.number,
            ..zones.value
        },
        last: line2,
    }
}

// Groups [11] to [15].
fn take_limits(words: &[u64], stops: Part<Data50>) -> Part<Data50>
    requires { Ready words.now 232 (stand stops.last) }
    ensures { (n : ℕ) (h : Contract) → Taken words.now 232 (drop 31 data50) (n ∷ behind h ++ take 31 (numbers50 stops.value)) (stand stops.last) (n ∷ behind h ++ numbers50 result.value) (stand result.last) }
{
    let groups = stops.value.bitmap;
    let weekly = take::number(words, BITS, stops.last, When::Bit(groups, 11), 14);
    let start_date = take::number(words, BITS, weekly, When::Bit(groups, 12), 14);
    let end_minute = take::at_most(
        words,
        BITS,
        start_date,
        When::Bit(groups, 13),
        11,
        LAST_MINUTE,
    );
    let token = take::number(words, BITS, end_minute, When::Bit(groups, 14), 4);
    let intermodal = take::number(words, BITS, token, When::Bit(groups, 15), 4);
    Part {
        value: Data50 {
            weekly: weekly.number,
            start_date: start_date.number,
            end_minute: end_minute.number,
            token: token.number,
            intermodal: intermodal.number,
            ..stops.value
        },
        last: intermodal,
    }
}

// Writes a contract under a type to a lent record, all of it; refused, the record is as it was.
pub fn write(bytes: &mut [u8], kind: u32, c: Contract) -> Result<(), Refusal>
    ensures { record { answer = answer_of result; bytes = bytes.new } ≡ contract_written kind c bytes.old }
{
    if bytes.len() != BYTES {
        return Err(Refusal::WRONG_LENGTH);
    }
    if !known(kind) {
        return Err(Refusal::UNKNOWN_TYPE);
    }
    let mut draft = [0u64; 9];
    let last = put_fields(&mut draft, kind, c);
    Refusal::met(last)?;
    let end = margin::put(&mut draft, BITS, last, c.margin);
    put::end(&draft, end, bytes);
    Refusal::met(end)
}

fn put_fields(draft: &mut [u64], kind: u32, c: Contract) -> Cursor
    requires { length draft.old ≡ 9 }
    ensures { PutOf kind c draft.old draft.new (stand result) }
{
    let head = put_head(draft, c);
    if !agrees(kind, c) {
        return disagreed(head);
    }
    if kind == Contract::CARNET {
        return put_carnet(draft, head, c.bitmap, carnet(c.data));
    }
    put_urban(draft, head, c.bitmap, urban(c.data))
}

// Whether the data are those that bit [6] and the type call for.
fn agrees(kind: u32, c: Contract) -> bool
    ensures { result ≡ agrees kind c }
{
    let follow = follow(c.bitmap);
    match c.data {
        Data::Nothing => !follow,
        Data::Carnet(_) => follow && kind == Contract::CARNET,
        Data::Urban(_) => follow && kind == Contract::URBAN,
    }
}

// Data that do not agree are 7 at the first bit after the head, as a whole.
fn disagreed(head: Cursor) -> Cursor
    ensures { stand result ≡ disagreed (stand head) }
{
    if head.is_refused() {
        return head;
    }
    Cursor {
        at: head.at,
        why: Some(Why::NoFit),
        field: Contract::COUNT_AT_DATA,
        number: 0,
    }
}

fn carnet(data: Data) -> Data42
    ensures { result ≡ carnet «data» }
{
    match data {
        Data::Carnet(d) => d,
        _ => Data42::default(),
    }
}

fn urban(data: Data) -> Data50
    ensures { result ≡ urban «data» }
{
    match data {
        Data::Urban(d) => d,
        _ => Data50::default(),
    }
}

fn put_head(draft: &mut [u64], c: Contract) -> Cursor
    requires { length draft.old ≡ 9 }
    ensures { (more : List ℕ) → Given 232 (head_numbers c ++ more) head [] draft.old start (head_numbers c) draft.new (stand result) }
{
    let validity = c.validity_bitmap;
    let at = put::number(draft, BITS, Cursor::START, When::Always, 7, c.bitmap);
    let at = put::number(draft, BITS, at, When::Bit(c.bitmap, 0), 8, c.provider);
    let at = put::number(draft, BITS, at, When::Bit(c.bitmap, 1), 16, c.tariff);
    let at = put::number(draft, BITS, at, When::Bit(c.bitmap, 2), 32, c.serial);
    let at = put::number(draft, BITS, at, When::Bit(c.bitmap, 3), 8, c.class);
    let at = put::number(draft, BITS, at, When::Bit(c.bitmap, 4), 2, validity);
    let at = put::number(draft, BITS, at, When::Bit(validity, 0), 14, c.start_date);
    let at = put::number(draft, BITS, at, When::Bit(validity, 1), 14, c.end_date);
    put::number(draft, BITS, at, When::Bit(c.bitmap, 5), 8, c.status)
}

fn put_carnet(draft: &mut [u64], at: Cursor, bitmap: u32, d: Data42) -> Cursor
    requires { Drafted draft.old 232 (stand at) }
    ensures { (h : Contract) → Given 232 (bitmap ∷ behind h ++ numbers42 d) data42 (bitmap ∷ behind h) draft.old (stand at) (bitmap ∷ behind h ++ numbers42 d) draft.new (stand result) }
{
    let follow = When::Bit(bitmap, 6);
    let at = put::number(draft, BITS, at, follow, 11, d.pay_method);
    let at = put::number(draft, BITS, at, follow, 16, d.price);
    let at = put::number(draft, BITS, at, follow, 14, d.sale_date);
    let at = put::at_most(draft, BITS, at, follow, 11, LAST_MINUTE, d.sale_minute);
    let at = put::number(draft, BITS, at, follow, 8, d.agent);
    let at = put::number(draft, BITS, at, follow, 16, d.device);
    let at = put::number(draft, BITS, at, follow, 1, d.receipt);
    let at = put::number(draft, BITS, at, follow, 8, d.passengers);
    put::number(draft, BITS, at, follow, 14, d.inhibition_end)
}

fn put_urban(draft: &mut [u64], at: Cursor, bitmap: u32, d: Data50) -> Cursor
    requires { Drafted draft.old 232 (stand at) }
    ensures { (h : Contract) → Given 232 (bitmap ∷ behind h ++ numbers50 d) data50 (bitmap ∷ behind h) draft.old (stand at) (bitmap ∷ behind h ++ numbers50 d) draft.new (stand result) }
{
    let terms = put_terms(draft, at, bitmap, d);
    let purse = put_purse(draft, terms, d);
    let zones = put_zones(draft, purse, d);
    let stops = put_stops(draft, zones, d);
    put_limits(draft, stops, d)
}

// The numbers that are always there, and groups [0] and [1].
fn put_terms(draft: &mut [u64], at: Cursor, bitmap: u32, d: Data50) -> Cursor
    requires { Drafted draft.old 232 (stand at) }
    ensures { (h : Contract) → Given 232 (bitmap ∷ behind h ++ numbers50 d) (take 9 data50) (bitmap ∷ behind h) draft.old (stand at) (bitmap ∷ behind h ++ take 9 (numbers50 d)) draft.new (stand result) }
{
    let follow = When::Bit(bitmap, 6);
    let groups = d.bitmap;
    let at = put::number(draft, BITS, at, follow, 14, d.end_date);
    let at = put::number(draft, BITS, at, follow, 14, d.grey_list);
    let at = put::number(draft, BITS, at, follow, 16, d.chrono);
    let at = put::number(draft, BITS, at, follow, 2, d.flag);
    let at = put::number(draft, BITS, at, follow, 16, groups);
    let at = put::number(draft, BITS, at, When::Bit(groups, 0), 8, d.agent);
    let at = put::number(draft, BITS, at, When::Bit(groups, 1), 14, d.origin);
    let at = put::number(draft, BITS, at, When::Bit(groups, 1), 14, d.destination);
    put::number(draft, BITS, at, When::Bit(groups, 1), 14, d.via)
}

// Groups [2] to [5].
fn put_purse(draft: &mut [u64], at: Cursor, d: Data50) -> Cursor
    requires { Drafted draft.old 232 (stand at) }
    ensures { (n : ℕ) (h : Contract) → Given 232 (n ∷ behind h ++ numbers50 d) (take 9 (drop 9 data50)) (n ∷ behind h ++ take 9 (numbers50 d)) draft.old (stand at) (n ∷ behind h ++ take 18 (numbers50 d)) draft.new (stand result) }
{
    let groups = d.bitmap;
    let at = put::number(draft, BITS, at, When::Bit(groups, 2), 16, d.token1);
    let at = put::number(draft, BITS, at, When::Bit(groups, 2), 16, d.token2);
    let at = put::number(draft, BITS, at, When::Bit(groups, 2), 14, d.autoload_start);
    let at = put::number(draft, BITS, at, When::Bit(groups, 2), 14, d.autoload_end);
    let at = put::number(draft, BITS, at, When::Bit(groups, 3), 8, d.balance);
    let at = put::number(draft, BITS, at, When::Bit(groups, 3), 5, d.last_debit);
    let at = put::number(draft, BITS, at, When::Bit(groups, 4), 19, d.purse);
    let at = put::number(draft, BITS, at, When::Bit(groups, 4), 16, d.debit);
    put::number(draft, BITS, at, When::Bit(groups, 5), 6, d.passengers)
}

// Groups [6] to [8].
fn put_zones(draft: &mut [u64], at: Cursor, d: Data50) -> Cursor
    requires { Drafted draft.old 232 (stand at) }
    ensures { (n : ℕ) (h : Contract) → Given 232 (n ∷ behind h ++ numbers50 d) (take 7 (drop 18 data50)) (n ∷ behind h ++ take 18 (numbers50 d)) draft.old (stand at) (n ∷ behind h ++ take 25 (numbers50 d)) draft.new (stand result) }
{
    let groups = d.bitmap;
    let at = put::number(draft, BITS, at, When::Bit(groups, 6), 14, d.period_end);
    let at = put::number(draft, BITS, at, When::Bit(groups, 6), 6, d.period_balance);
    let at = put::number(draft, BITS, at, When::Bit(groups, 7), 6, d.zone1);
    let at = put::number(draft, BITS, at, When::Bit(groups, 7), 6, d.zone2);
    let at = put::number(draft, BITS, at, When::Bit(groups, 7), 6, d.zone3);
    let at = put::number(draft, BITS, at, When::Bit(groups, 8), 6, d.sections);
    put::number(draft, BITS, at, When::Bit(groups, 8), 6, d.sections_left)
}

// Groups [9] and [10].
fn put_stops(draft: &mut [u64], at: Cursor, d: Data50) -> Cursor
    requires { Drafted draft.old 232 (stand at) }
    ensures { (n : ℕ) (h : Contract) → Given 232 (n ∷ behind h ++ numbers50 d) (take 6 (drop 25 data50)) (n ∷ behind h ++ take 25 (numbers50 d)) draft.old (stand at) (n ∷ behind h ++ take 31 (numbers50 d)) draft.new (stand result) }
{
    let groups = d.bitmap;
    let at = put::number(draft, BITS, at, When::Bit(groups, 9), 14, d.stop1);
    let at = put::number(draft, BITS, at, When::Bit(groups, 9), 14, d.stop2);
    let at = put::number(draft, BITS, at, When::Bit(groups, 9), 14, d.stop3);
    let at = put::number(draft, BITS, at, When::Bit(groups, 9), 14, d.stop4);
    let at = put::number(draft, BITS, at, When::Bit(groups, 10), 14, d.line1);
    put::number(draft, BITS, at, When::Bit(groups, 10), 14, d.line2)
}

// Groups [11] to [15].
fn put_limits(draft: &mut [u64], at: Cursor, d: Data50) -> Cursor
    requires { Drafted draft.old 232 (stand at) }
    ensures { (n : ℕ) (h : Contract) → Given 232 (n ∷ behind h ++ numbers50 d) (drop 31 data50) (n ∷ behind h ++ take 31 (numbers50 d)) draft.old (stand at) (n ∷ behind h ++ numbers50 d) draft.new (stand result) }
{
    let groups = d.bitmap;
    let at = put::number(draft, BITS, at, When::Bit(groups, 11), 14, d.weekly);
    let at = put::number(draft, BITS, at, When::Bit(groups, 12), 14, d.start_date);
    let at = put::at_most(
        draft,
        BITS,
        at,
        When::Bit(groups, 13),
        11,
        LAST_MINUTE,
        d.end_minute,
    );
    let at = put::number(draft, BITS, at, When::Bit(groups, 14), 4, d.token);
    put::number(draft, BITS, at, When::Bit(groups, 15), 4, d.intermodal)
}
