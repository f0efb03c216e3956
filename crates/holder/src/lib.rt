// Holder, in an area of 1 to 4 records handed over together.
#![tactic(auto)]

ghost use Rattle.std.specs.Prelude.{◌≡◌, [], ◌∷◌, true, ◌+◌, ◌≤◌, length};
ghost use Rattle.rows.specs.Inner.Standing.{stand};
ghost use Rattle.rows.specs.Inner.Step.{Ready, Took, Drafted, Gave};
ghost use Rattle.rows.specs.Inner.Line.{start, Taken, Given};
ghost use Rattle.rows.specs.Table.Holder.{holder};
ghost use Rattle.records.specs.Answer.{answer_of, area_length, from};
ghost use Rattle.holder.specs.Holder.{profile_of, numbers_of, with_texts, holder_of, holder_answer, holder_read, holder_written};
ghost use Rattle.holder.specs.Inner.Steps.{block, ProfileTook, ProfileGave};

use records::Refusal;
use rows::take::Part;
use rows::{Cursor, Rule, When, margin, put, take};
use std::array;

#[derive(Clone, Copy, Debug, PartialEq, Eq)]
pub struct Profile {
    pub bitmap: u32,
    pub network: u32,
    pub number: u32,
    pub date: u32,
}

#[derive(Clone, Copy, Debug, PartialEq, Eq)]
pub struct Holder {
    pub bitmap: u32,
    pub name_bitmap: u32,
    pub surname: [u32; 17],
    pub forename: [u32; 17],
    pub birth_bitmap: u32,
    pub birth_date: u32,
    pub birth_place: [u32; 23],
    pub birth_name: [u32; 17],
    pub id: u32,
    pub country: u32,
    pub company: u32,
    pub profile_count: u32,
    pub profiles: [Profile; 4],
    pub data_bitmap: u32,
    pub card_status: u32,
    pub telepayment: u32,
    pub residence: u32,
    pub commercial_id: u32,
    pub work_place: u32,
    pub study_place: u32,
    pub sale_device: u32,
    pub authenticator: u32,
    pub start1: u32,
    pub start2: u32,
    pub start3: u32,
    pub start4: u32,
    // as a record's, over the bits of four records and 32 that no area has
    pub margin: [u64; 15],
}

impl Profile {
    // One that is not there.
    const NONE: Profile = Profile {
        bitmap: 0,
        network: 0,
        number: 0,
        date: 0,
    };

    // The profile whose numbers stand from i on.
    fn at(numbers: &[u32], i: usize) -> Profile
        requires { i + 4 ≤ length numbers.now }
        ensures { result ≡ profile_of i numbers.now }
    {
        Profile {
            bitmap: numbers[i],
            network: numbers[i + 1],
            number: numbers[i + 2],
            date: numbers[i + 3],
        }
    }
}

impl Holder {
    // All numbers zero, and nothing in the margin.
    pub const ZERO: Holder = Holder {
        bitmap: 0,
        name_bitmap: 0,
        surname: [0; 17],
        forename: [0; 17],
        birth_bitmap: 0,
        birth_date: 0,
        birth_place: [0; 23],
        birth_name: [0; 17],
        id: 0,
        country: 0,
        company: 0,
        profile_count: 0,
        profiles: [Profile::NONE; 4],
        data_bitmap: 0,
        card_status: 0,
        telepayment: 0,
        residence: 0,
        commercial_id: 0,
        work_place: 0,
        study_place: 0,
        sale_device: 0,
        authenticator: 0,
        start1: 0,
        start2: 0,
        start3: 0,
        start4: 0,
        margin: [0; 15],
    };

    // Its numbers in card order. No From, here and below: docs/CONTRACTS.md promises the names.
    pub fn numbers(self) -> [u32; 111]
        ensures { result ≡ numbers_of self }
    {
        let mut numbers = [0u32; 111];
        numbers[..36].copy_from_slice(&self.name_numbers());
        numbers[36..78].copy_from_slice(&self.birth_numbers());
        numbers[78..].copy_from_slice(&self.other_numbers());
        numbers
    }

    // The two bitmaps, surname and forename.
    fn name_numbers(self) -> [u32; 36]
        ensures { result ≡ from 0 36 (numbers_of self) }
    {
        let mut numbers = [0u32; 36];
        numbers[0] = self.bitmap;
        numbers[1] = self.name_bitmap;
        numbers[2..19].copy_from_slice(&self.surname);
        numbers[19..].copy_from_slice(&self.forename);
        numbers
    }

    // The birth's bitmap, date and place, and the birth name.
    fn birth_numbers(self) -> [u32; 42]
        ensures { result ≡ from 36 42 (numbers_of self) }
    {
        let mut numbers = [0u32; 42];
        numbers[0] = self.birth_bitmap;
        numbers[1] = self.birth_date;
        numbers[2..25].copy_from_slice(&self.birth_place);
        numbers[25..].copy_from_slice(&self.birth_name);
        numbers
    }

    // From the id on.
    fn other_numbers(self) -> [u32; 33]
        ensures { result ≡ from 78 33 (numbers_of self) }
    {
        let profiles = self.profiles;
        let profile1 = profiles[0];
        let profile2 = profiles[1];
        let profile3 = profiles[2];
        let profile4 = profiles[3];
        [
            self.id,
            self.country,
            self.company,
            self.profile_count,
            profile1.bitmap,
            profile1.network,
            profile1.number,
            profile1.date,
            profile2.bitmap,
            profile2.network,
            profile2.number,
            profile2.date,
            profile3.bitmap,
            profile3.network,
            profile3.number,
            profile3.date,
            profile4.bitmap,
            profile4.network,
            profile4.number,
            profile4.date,
            self.data_bitmap,
            self.card_status,
            self.telepayment,
            self.residence,
            self.commercial_id,
            self.work_place,
            self.study_place,
            self.sale_device,
            self.authenticator,
            self.start1,
            self.start2,
            self.start3,
            self.start4,
        ]
    }

    // The Holder of such numbers, and a margin.
    pub fn of(numbers: [u32; 111], margin: [u64; 15]) -> Holder
        ensures { result ≡ holder_of numbers margin }
    {
        let mut surname = [0u32; 17];
        let mut forename = [0u32; 17];
        let mut birth_place = [0u32; 23];
        let mut birth_name = [0u32; 17];
        surname.copy_from_slice(&numbers[2..19]);
        forename.copy_from_slice(&numbers[19..36]);
        birth_place.copy_from_slice(&numbers[38..61]);
        birth_name.copy_from_slice(&numbers[61..78]);
        Holder::with_texts(numbers, surname, forename, birth_place, birth_name, margin)
    }

    // The Holder of these texts and this margin, with its other numbers out of all.
    fn with_texts(
        numbers: [u32; 111],
        surname: [u32; 17],
        forename: [u32; 17],
        birth_place: [u32; 23],
        birth_name: [u32; 17],
        margin: [u64; 15],
    ) -> Holder
        ensures { result ≡ with_texts numbers surname forename birth_place birth_name margin }
    {
        Holder {
            bitmap: numbers[0],
            name_bitmap: numbers[1],
            surname,
            forename,
            birth_bitmap: numbers[36],
            birth_date: numbers[37],
            birth_place,
            birth_name,
            id: numbers[78],
            country: numbers[79],
            company: numbers[80],
            profile_count: numbers[81],
            profiles: array::from_fn(|k| Profile::at(&numbers, 82 + 4 * k)),
            data_bitmap: numbers[98],
            card_status: numbers[99],
            telepayment: numbers[100],
            residence: numbers[101],
            commercial_id: numbers[102],
            work_place: numbers[103],
            study_place: numbers[104],
            sale_device: numbers[105],
            authenticator: numbers[106],
            start1: numbers[107],
            start2: numbers[108],
            start3: numbers[109],
            start4: numbers[110],
            margin,
        }
    }
}

// An area is 1 to 4 records.
pub fn is_area(n: usize) -> bool
    ensures { result ≡ area_length n }
{
    matches!(n, 29 | 58 | 87 | 116)
}

fn take_person(words: &[u64], end: u32) -> Part<Holder>
    requires { (length words.now ≡ 30) × (end ≤ 928) }
    ensures { Taken words.now end (block 0 8) [] start (from 0 78 (numbers_of result.value)) (stand result.last) }
{
    let mut surname = [0u32; 17];
    let mut forename = [0u32; 17];
    let mut birth_place = [0u32; 23];
    let mut birth_name = [0u32; 17];
    let bitmap = take::number(words, end, Cursor::START, When::Always, 8);
    let name = take::number(words, end, bitmap, When::Bit(bitmap.number, 0), 2);
    let c = take::text(words, end, name, When::Bit(name.number, 0), &mut surname);
    let c = take::text(words, end, c, When::Bit(name.number, 1), &mut forename);
    let birth = take::number(words, end, c, When::Bit(bitmap.number, 1), 2);
    let date = take::number(words, end, birth, When::Bit(birth.number, 0), 32);
    let c = take::text(
        words,
        end,
        date,
        When::Bit(birth.number, 1),
        &mut birth_place,
    );
    let last = take::text(words, end, c, When::Bit(bitmap.number, 2), &mut birth_name);
    let mut h = Holder::ZERO;
    h.bitmap = bitmap.number;
    h.name_bitmap = name.number;
    h.surname = surname;
    h.forename = forename;
    h.birth_bitmap = birth.number;
    h.birth_date = date.number;
    h.birth_place = birth_place;
    h.birth_name = birth_name;
    Part { value: h, last }
}

fn take_identity(words: &[u64], end: u32, fields: Part<Holder>) -> Part<Holder>
    requires { Ready words.now end (stand fields.last) }
    ensures { Taken words.now end (block 8 4) (from 0 78 (numbers_of fields.value)) (stand fields.last)
        (from 0 82 (numbers_of result.value)) (stand result.last) }
{
    let c = fields.last;
    let mut h = fields.value;
    let id = take::number(words, end, c, When::Bit(h.bitmap, 3), 32);
    let country = take::number(words, end, id, When::Bit(h.bitmap, 4), 24);
    let company = take::number(words, end, country, When::Bit(h.bitmap, 5), 32);
    let count = take::at_most(words, end, company, When::Bit(h.bitmap, 6), 4, 4);
    h.id = id.number;
    h.country = country.number;
    h.company = company.number;
    h.profile_count = count.number;
    Part {
        value: h,
        last: count,
    }
}

// Profile k, from 0, of so many.
fn take_profile(words: &[u64], end: u32, c: Cursor, count: u32, k: u32) -> Part<Profile>
    requires { Ready words.now end (stand c) }
    ensures { ProfileTook words.now end (stand c) count k result.value (stand result.last) }
{
    let bitmap = take::number(words, end, c, When::Above(count, k), 3);
    let network = take::number(words, end, bitmap, When::Bit(bitmap.number, 0), 24);
    let number = take::number(words, end, network, When::Bit(bitmap.number, 1), 8);
    let date = take::number(words, end, number, When::Bit(bitmap.number, 2), 14);
    Part {
        value: Profile {
            bitmap: bitmap.number,
            network: network.number,
            number: number.number,
            date: date.number,
        },
        last: date,
    }
}

fn take_profiles(words: &[u64], end: u32, fields: Part<Holder>) -> Part<Holder>
    requires { Ready words.now end (stand fields.last) }
    ensures { Taken words.now end (block 12 16) (from 0 82 (numbers_of fields.value)) (stand fields.last)
        (from 0 98 (numbers_of result.value)) (stand result.last) }
{
    let mut h = fields.value;
    let count = h.profile_count;
    let mut last = fields.last;
    for k in 0..4 {
        let taken = take_profile(words, end, last, count, k as u32);
        last = taken.last;
        h.profiles[k] = taken.value;
    }
    Part { value: h, last }
}

// A residence, work or study place.
fn take_place(words: &[u64], end: u32, c: Cursor, when: When) -> Cursor
    requires { Ready words.now end (stand c) }
    ensures { Took words.now end (stand c) when (17 ∷ []) (Rule.Most 99999) (result.number ∷ []) (stand result) }
{
    take::at_most(words, end, c, when, 17, 99999)
}

fn take_data(words: &[u64], end: u32, fields: Part<Holder>) -> Part<Holder>
    requires { Ready words.now end (stand fields.last) }
    ensures { Taken words.now end (block 28 13) (from 0 98 (numbers_of fields.value)) (stand fields.last)
        (numbers_of result.value) (stand result.last) }
{
    let c = fields.last;
    let mut h = fields.value;
    let data = take::number(words, end, c, When::Bit(h.bitmap, 7), 12);
    let status = take::number(words, end, data, When::Bit(data.number, 0), 4);
    let pay = take::number(words, end, status, When::Bit(data.number, 1), 4);
    let residence = take_place(words, end, pay, When::Bit(data.number, 2));
    let commercial = take::number(words, end, residence, When::Bit(data.number, 3), 6);
    let work = take_place(words, end, commercial, When::Bit(data.number, 4));
    let study = take_place(words, end, work, When::Bit(data.number, 5));
    let sale = take::number(words, end, study, When::Bit(data.number, 6), 16);
    let auth = take::number(words, end, sale, When::Bit(data.number, 7), 16);
    let start1 = take::number(words, end, auth, When::Bit(data.number, 8), 14);
    let start2 = take::number(words, end, start1, When::Bit(data.number, 9), 14);
    let start3 = take::number(words, end, start2, When::Bit(data.number, 10), 14);
    let start4 = take::number(words, end, start3, When::Bit(data.number, 11), 14);
    h.data_bitmap = data.number;
    h.card_status = status.number;
    h.telepayment = pay.number;
    h.residence = residence.number;
    h.commercial_id = commercial.number;
    h.work_place = work.number;
    h.study_place = study.number;
    h.sale_device = sale.number;
    h.authenticator = auth.number;
    h.start1 = start1.number;
    h.start2 = start2.number;
    h.start3 = start3.number;
    h.start4 = start4.number;
    Part {
        value: h,
        last: start4,
    }
}

fn take_fields(words: &[u64], end: u32) -> Part<Holder>
    requires { (length words.now ≡ 30) × (end ≤ 928) }
    ensures { Taken words.now end holder [] start (numbers_of result.value) (stand result.last) }
{
    let person = take_person(words, end);
    let identity = take_identity(words, end, person);
    let profiles = take_profiles(words, end, identity);
    take_data(words, end, profiles)
}

// The Holder in a lent area.
pub fn read(bytes: &[u8]) -> Result<Holder, Refusal>
    ensures { holder_answer result ≡ holder_read bytes.now }
{
    if is_area(bytes.len()) {
        return read_area(bytes);
    }
    Err(Refusal::WRONG_LENGTH)
}

#[tactic(auto, using(records::proofs::Answering::area_room))]
fn read_area(bytes: &[u8]) -> Result<Holder, Refusal>
    requires { area_length (length bytes.now) ≡ true }
    ensures { holder_answer result ≡ holder_read bytes.now }
{
    let end = 8 * bytes.len() as u32;
    let mut words = [0u64; 30];
    bits::area_words(bytes, &mut words);
    let fields = take_fields(&words, end);
    let last = fields.last;
    Refusal::met(last)?;
    let mut left = [0u64; 15];
    margin::take_area(&words, end, last.at, &mut left);
    let mut holder = fields.value;
    holder.margin = left;
    Ok(holder)
}

// Writes a Holder to a lent area, all of it; refused, the area is as it was.
pub fn write(bytes: &mut [u8], h: Holder) -> Result<(), Refusal>
    ensures { record { answer = answer_of result; bytes = bytes.new } ≡ holder_written bytes.old h }
{
    if is_area(bytes.len()) {
        return write_area(bytes, h);
    }
    Err(Refusal::WRONG_LENGTH)
}

#[tactic(auto, using(records::proofs::Answering::area_room))]
fn write_area(bytes: &mut [u8], h: Holder) -> Result<(), Refusal>
    requires { area_length (length bytes.old) ≡ true }
    ensures { record { answer = answer_of result; bytes = bytes.new } ≡ holder_written bytes.old h }
{
    let room = 8 * bytes.len() as u32;
    let mut draft = [0u64; 31];
    let last = put_fields(&mut draft, room, h);
    Refusal::met(last)?;
    let whole = h.margin;
    let end = margin::put_area(&mut draft, room, last, &whole);
    put::end(&draft, end, bytes);
    Refusal::met(end)
}

fn put_fields(draft: &mut [u64], room: u32, h: Holder) -> Cursor
    requires { (length draft.old ≡ 31) × (room ≤ 928) }
    ensures { Given room (numbers_of h) holder [] draft.old start (numbers_of h) draft.new (stand result) }
{
    let person = put_person(draft, room, h);
    let mut c = put_identity(draft, room, person, h);
    for (k, profile) in h.profiles.iter().enumerate() {
        c = put_profile(draft, room, c, h.profile_count, k as u32, *profile);
    }
    put_data(draft, room, c, h)
}

fn put_person(draft: &mut [u64], room: u32, h: Holder) -> Cursor
    requires { (length draft.old ≡ 31) × (room ≤ 928) }
    ensures { Given room (numbers_of h) (block 0 8) [] draft.old start (from 0 78 (numbers_of h)) draft.new (stand result) }
{
    let surname = h.surname;
    let forename = h.forename;
    let birth_place = h.birth_place;
    let birth_name = h.birth_name;
    let c = put::number(draft, room, Cursor::START, When::Always, 8, h.bitmap);
    let c = put::number(draft, room, c, When::Bit(h.bitmap, 0), 2, h.name_bitmap);
    let c = put::text(draft, room, c, When::Bit(h.name_bitmap, 0), &surname);
    let c = put::text(draft, room, c, When::Bit(h.name_bitmap, 1), &forename);
    let c = put::number(draft, room, c, When::Bit(h.bitmap, 1), 2, h.birth_bitmap);
    let c = put::number(
        draft,
        room,
        c,
        When::Bit(h.birth_bitmap, 0),
        32,
        h.birth_date,
    );
    let c = put::text(draft, room, c, When::Bit(h.birth_bitmap, 1), &birth_place);
    put::text(draft, room, c, When::Bit(h.bitmap, 2), &birth_name)
}

fn put_identity(draft: &mut [u64], room: u32, c: Cursor, h: Holder) -> Cursor
    requires { Drafted draft.old room (stand c) }
    ensures { Given room (numbers_of h) (block 8 4) (from 0 78 (numbers_of h)) draft.old (stand c)
        (from 0 82 (numbers_of h)) draft.new (stand result) }
{
    let c = put::number(draft, room, c, When::Bit(h.bitmap, 3), 32, h.id);
    let c = put::number(draft, room, c, When::Bit(h.bitmap, 4), 24, h.country);
    let c = put::number(draft, room, c, When::Bit(h.bitmap, 5), 32, h.company);
    put::at_most(
        draft,
        room,
        c,
        When::Bit(h.bitmap, 6),
        4,
        4,
        h.profile_count,
    )
}

// Profile k, from 0, of so many.
fn put_profile(draft: &mut [u64], room: u32, c: Cursor, count: u32, k: u32, p: Profile) -> Cursor
    requires { Drafted draft.old room (stand c) }
    ensures { ProfileGave draft.old draft.new room (stand c) count k p (stand result) }
{
    let c = put::number(draft, room, c, When::Above(count, k), 3, p.bitmap);
    let c = put::number(draft, room, c, When::Bit(p.bitmap, 0), 24, p.network);
    let c = put::number(draft, room, c, When::Bit(p.bitmap, 1), 8, p.number);
    put::number(draft, room, c, When::Bit(p.bitmap, 2), 14, p.date)
}

fn put_place(draft: &mut [u64], room: u32, c: Cursor, when: When, v: u32) -> Cursor
    requires { Drafted draft.old room (stand c) }
    ensures { Gave draft.old draft.new room (stand c) when (17 ∷ []) (Rule.Most 99999) (v ∷ []) (stand result) }
{
    put::at_most(draft, room, c, when, 17, 99999, v)
}

fn put_data(draft: &mut [u64], room: u32, c: Cursor, h: Holder) -> Cursor
    requires { Drafted draft.old room (stand c) }
    ensures { Given room (numbers_of h) (block 28 13) (from 0 98 (numbers_of h)) draft.old (stand c)
        (numbers_of h) draft.new (stand result) }
{
    let data = h.data_bitmap;
    let c = put::number(draft, room, c, When::Bit(h.bitmap, 7), 12, data);
    let c = put::number(draft, room, c, When::Bit(data, 0), 4, h.card_status);
    let c = put::number(draft, room, c, When::Bit(data, 1), 4, h.telepayment);
    let c = put_place(draft, room, c, When::Bit(data, 2), h.residence);
    let c = put::number(draft, room, c, When::Bit(data, 3), 6, h.commercial_id);
    let c = put_place(draft, room, c, When::Bit(data, 4), h.work_place);
    let c = put_place(draft, room, c, When::Bit(data, 5), h.study_place);
    let c = put::number(draft, room, c, When::Bit(data, 6), 16, h.sale_device);
    let c = put::number(draft, room, c, When::Bit(data, 7), 16, h.authenticator);
    let c = put::number(draft, room, c, When::Bit(data, 8), 14, h.start1);
    let c = put::number(draft, room, c, When::Bit(data, 9), 14, h.start2);
    let c = put::number(draft, room, c, When::Bit(data, 10), 14, h.start3);
    put::number(draft, room, c, When::Bit(data, 11), 14, h.start4)
}
