// Event, of the journal and of the special events.
ghost use Rattle.std.specs.Prelude.{◌≡◌, [], length, take, drop};
ghost use Rattle.rows.specs.Inner.Step.{Ready, Drafted};
ghost use Rattle.rows.specs.Inner.Standing.{stand};
ghost use Rattle.rows.specs.Inner.Line.{start, Taken, Given};
ghost use Rattle.rows.specs.Margin.{words_of};
ghost use Rattle.rows.specs.Table.Event.{event};
ghost use Rattle.records.specs.Answer.{answer_of, heard};
ghost use Rattle.records.specs.Event.{event_told, event_read, event_written, numbers_of, event_of};

use crate::{BITS, BYTES, LAST_MINUTE, Refusal};
use rows::margin::Margin;
use rows::take::Part;
use rows::{Cursor, When, margin, put, take};

// Element [17] can never fit: it has no number here.
#[derive(Clone, Copy, Debug, PartialEq, Eq)]
pub struct Event {
    pub date: u32,
    pub minute: u32,
    pub bitmap: u32,
    pub display_data: u32,
    pub network: u32,
    pub code: u32,
    pub result: u32,
    pub provider: u32,
    pub not_ok_counter: u32,
    pub serial: u32,
    pub destination: u32,
    pub location: u32,
    pub gate: u32,
    pub device: u32,
    pub route: u32,
    pub route_variant: u32,
    pub journey_run: u32,
    pub vehicle: u32,
    pub vehicle_class: u32,
    pub location_type: u32,
    pub location_reference: u32,
    pub interchanges: u32,
    pub period_journeys: u32,
    pub total_journeys: u32,
    pub distance: u32,
    pub price: u32,
    pub price_unit: u32,
    pub pointer: u32,
    pub authenticator: u32,
    pub data_bitmap: u32,
    pub first_date: u32,
    pub first_minute: u32,
    pub simulation: u32,
    pub trip: u32,
    pub direction: u32,
    pub margin: Margin,
}

impl Event {
    // The highest contract pointer, a simple right.
    pub const LAST_POINTER: u32 = 19;

    // All fields absent, on day 0 at minute 0, and nothing in the margin.
    pub const ZERO: Event = Event {
        date: 0,
        minute: 0,
        bitmap: 0,
        display_data: 0,
        network: 0,
        code: 0,
        result: 0,
        provider: 0,
        not_ok_counter: 0,
        serial: 0,
        destination: 0,
        location: 0,
        gate: 0,
        device: 0,
        route: 0,
        route_variant: 0,
        journey_run: 0,
        vehicle: 0,
        vehicle_class: 0,
        location_type: 0,
        location_reference: 0,
        interchanges: 0,
        period_journeys: 0,
        total_journeys: 0,
        distance: 0,
        price: 0,
        price_unit: 0,
        pointer: 0,
        authenticator: 0,
        data_bitmap: 0,
        first_date: 0,
        first_minute: 0,
        simulation: 0,
        trip: 0,
        direction: 0,
        margin: Margin::NONE,
    };

    // Its numbers in card order; element [17] is 0. No From, here and below: docs/CONTRACTS.md promises the names.
    pub fn numbers(self) -> [u32; 36]
        ensures { result ≡ numbers_of self }
    {
        [
            self.date,
            self.minute,
            self.bitmap,
            self.display_data,
            self.network,
            self.code,
            self.result,
            self.provider,
            self.not_ok_counter,
            self.serial,
            self.destination,
            self.location,
            self.gate,
            self.device,
            self.route,
            self.route_variant,
            self.journey_run,
            self.vehicle,
            self.vehicle_class,
            self.location_type,
            0,
            self.location_reference,
            self.interchanges,
            self.period_journeys,
            self.total_journeys,
            self.distance,
            self.price,
            self.price_unit,
            self.pointer,
            self.authenticator,
            self.data_bitmap,
            self.first_date,
            self.first_minute,
            self.simulation,
            self.trip,
            self.direction,
        ]
    }

    // The Event of such numbers, and a margin.
    pub fn of(numbers: [u32; 36], margin: Margin) -> Event
        ensures { result ≡ event_of numbers (words_of margin) }
    {
        Event {
            date: numbers[0],
            minute: numbers[1],
            bitmap: numbers[2],
            display_data: numbers[3],
            network: numbers[4],
            code: numbers[5],
            result: numbers[6],
            provider: numbers[7],
            not_ok_counter: numbers[8],
            serial: numbers[9],
            destination: numbers[10],
            location: numbers[11],
            gate: numbers[12],
            device: numbers[13],
            route: numbers[14],
            route_variant: numbers[15],
            journey_run: numbers[16],
            vehicle: numbers[17],
            vehicle_class: numbers[18],
            location_type: numbers[19],
            location_reference: numbers[21],
            interchanges: numbers[22],
            period_journeys: numbers[23],
            total_journeys: numbers[24],
            distance: numbers[25],
            price: numbers[26],
            price_unit: numbers[27],
            pointer: numbers[28],
            authenticator: numbers[29],
            data_bitmap: numbers[30],
            first_date: numbers[31],
            first_minute: numbers[32],
            simulation: numbers[33],
            trip: numbers[34],
            direction: numbers[35],
            margin,
        }
    }
}

// The Event in a lent record.
pub fn read(bytes: &[u8]) -> Result<Event, Refusal>
    ensures { event_told (heard result) ≡ event_told (event_read bytes.now) }
{
    if bytes.len() != BYTES {
        return Err(Refusal::WRONG_LENGTH);
    }
    let mut words = [0u64; 8];
    bits::words(&bytes[..], &mut words);
    let fields = take_fields(&words);
    let last = fields.last;
    Refusal::met(last)?;
    let mut value = fields.value;
    value.margin = margin::take(&words, last.at);
    Ok(value)
}

fn take_fields(words: &[u64]) -> Part<Event>
    requires { length words.now ≡ 8 }
    ensures { Taken words.now 232 event [] start (numbers_of result.value) (stand result.last) }
{
    let occasion = take_occasion(words);
    let journey = take_journey(words, occasion);
    take_account(words, journey)
}

// Date, minute and bitmap, and elements [0] to [8].
fn take_occasion(words: &[u64]) -> Part<Event>
    requires { length words.now ≡ 8 }
    ensures { Taken words.now 232 (take 12 event) [] start (take 12 (numbers_of result.value)) (stand result.last) }
{
    let date = take::number(words, BITS, Cursor::START, When::Always, 14);
    let minute = take::at_most(words, BITS, date, When::Always, 11, LAST_MINUTE);
    let bitmap = take::number(words, BITS, minute, When::Always, 28);
    let display_data = take::number(words, BITS, bitmap, When::Bit(bitmap.number, 0), 8);
    let network = take::number(words, BITS, display_data, When::Bit(bitmap.number, 1), 24);
    let code = take::number(words, BITS, network, When::Bit(bitmap.number, 2), 8);
    let result = take::number(words, BITS, code, When::Bit(bitmap.number, 3), 8);
    let provider = take::number(words, BITS, result, When::Bit(bitmap.number, 4), 8);
    let not_ok_counter = take::number(words, BITS, provider, When::Bit(bitmap.number, 5), 8);
    let serial = take::number(words, BITS, not_ok_counter, When::Bit(bitmap.number, 6), 24);
    let destination = take::number(words, BITS, serial, When::Bit(bitmap.number, 7), 16);
    let location = take::number(words, BITS, destination, When::Bit(bitmap.number, 8), 16);
    let mut e = Event::ZERO;
    e.date = date.number;
    e.minute = minute.number;
    e.bitmap = bitmap.number;
    e.display_data = display_data.number;
    e.network = network.number;
    e.code = code.number;
    e.result = result.number;
    e.provider = provider.number;
    e.not_ok_counter = not_ok_counter.number;
    e.serial = serial.number;
    e.destination = destination.number;
    e.location = location.number;
    Part {
        value: e,
        last: location,
    }
}

// Elements [9] to [20].
fn take_journey(words: &[u64], fields: Part<Event>) -> Part<Event>
    requires { Ready words.now 232 (stand fields.last) }
    ensures { Taken words.now 232 (take 12 (drop 12 event)) (take 12 (numbers_of fields.value)) (stand fields.last) (take 24 (numbers_of result.value)) (stand result.last) }
{
    let last = fields.last;
    let mut e = fields.value;
    let gate = take::number(words, BITS, last, When::Bit(e.bitmap, 9), 8);
    let device = take::number(words, BITS, gate, When::Bit(e.bitmap, 10), 16);
    let route = take::number(words, BITS, device, When::Bit(e.bitmap, 11), 16);
    let route_variant = take::number(words, BITS, route, When::Bit(e.bitmap, 12), 8);
    let journey_run = take::number(words, BITS, route_variant, When::Bit(e.bitmap, 13), 16);
    let vehicle = take::number(words, BITS, journey_run, When::Bit(e.bitmap, 14), 16);
    let vehicle_class = take::number(words, BITS, vehicle, When::Bit(e.bitmap, 15), 8);
    let location_type = take::number(words, BITS, vehicle_class, When::Bit(e.bitmap, 16), 5);
    let employee = take::never(BITS, location_type, When::Bit(e.bitmap, 17), 240);
    let location_reference = take::number(words, BITS, employee, When::Bit(e.bitmap, 18), 16);
    let interchanges = take::number(words, BITS, location_reference, When::Bit(e.bitmap, 19), 8);
    let period_journeys = take::number(words, BITS, interchanges, When::Bit(e.bitmap, 20), 16);
    e.gate = gate.number;
    e.device = device.number;
    e.route = route.number;
    e.route_variant = route_variant.number;
    e.journey_run = journey_run.number;
    e.vehicle = vehicle.number;
    e.vehicle_class = vehicle_class.number;
    e.location_type = location_type.number;
    e.location_reference = location_reference.number;
    e.interchanges = interchanges.number;
    e.period_journeys = period_journeys.number;
    Part {
        value: e,
        last: period_journeys,
    }
}

// Elements [21] to [27], the last a bitmap with its own.
fn take_account(words: &[u64], fields: Part<Event>) -> Part<Event>
    requires { Ready words.now 232 (stand fields.last) }
    ensures { Taken words.now 232 (drop 24 event) (take 24 (numbers_of fields.value)) (stand fields.last) (numbers_of result.value) (stand result.last) }
{
    let last = fields.last;
    let mut e = fields.value;
    let total_journeys = take::number(words, BITS, last, When::Bit(e.bitmap, 21), 16);
    let distance = take::number(words, BITS, total_journeys, When::Bit(e.bitmap, 22), 16);
    let price = take::number(words, BITS, distance, When::Bit(e.bitmap, 23), 16);
    let price_unit = take::number(words, BITS, price, When::Bit(e.bitmap, 24), 16);
    let pointer = take::at_most(
        words,
        BITS,
        price_unit,
        When::Bit(e.bitmap, 25),
        5,
        Event::LAST_POINTER,
    );
    let authenticator = take::number(words, BITS, pointer, When::Bit(e.bitmap, 26), 16);
    let data_bitmap = take::number(words, BITS, authenticator, When::Bit(e.bitmap, 27), 5);
    let inner = data_bitmap.number;
    let first_date = take::number(words, BITS, data_bitmap, When::Bit(inner, 0), 14);
    let first_minute = take::at_most(
        words,
        BITS,
        first_date,
        When::Bit(inner, 1),
        11,
        LAST_MINUTE,
    );
    let simulation = take::number(words, BITS, first_minute, When::Bit(inner, 2), 1);
    let trip = take::number(words, BITS, simulation, When::Bit(inner, 3), 2);
    let direction = take::number(words, BITS, trip, When::Bit(inner, 4), 2);
    e.total_journeys = total_journeys.number;
    e.distance = distance.number;
    e.price = price.number;
    e.price_unit = price_unit.number;
    e.pointer = pointer.number;
    e.authenticator = authenticator.number;
    e.data_bitmap = data_bitmap.number;
    e.first_date = first_date.number;
    e.first_minute = first_minute.number;
    e.simulation = simulation.number;
    e.trip = trip.number;
    e.direction = direction.number;
    Part {
        value: e,
        last: direction,
    }
}

// Writes an Event to a lent record, all of it; refused, the record is as it was.
pub fn write(bytes: &mut [u8], e: Event) -> Result<(), Refusal>
    ensures { record { answer = answer_of result; bytes = bytes.new } ≡ event_written bytes.old e }
{
    if bytes.len() != BYTES {
        return Err(Refusal::WRONG_LENGTH);
    }
    let mut draft = [0u64; 9];
    let last = put_fields(&mut draft, e);
    Refusal::met(last)?;
    let end = margin::put(&mut draft, BITS, last, e.margin);
    put::end(&draft, end, bytes);
    Refusal::met(end)
}

fn put_fields(draft: &mut [u64], e: Event) -> Cursor
    requires { length draft.old ≡ 9 }
    ensures { Given 232 (numbers_of e) event [] draft.old start (numbers_of e) draft.new (stand result) }
{
    let occasion = put_occasion(draft, e);
    let journey = put_journey(draft, occasion, e);
    put_account(draft, journey, e)
}

fn put_occasion(draft: &mut [u64], e: Event) -> Cursor
    requires { length draft.old ≡ 9 }
    ensures { Given 232 (numbers_of e) (take 12 event) [] draft.old start (take 12 (numbers_of e)) draft.new (stand result) }
{
    let mut d = put::number(draft, BITS, Cursor::START, When::Always, 14, e.date);
    d = put::at_most(draft, BITS, d, When::Always, 11, LAST_MINUTE, e.minute);
    d = put::number(draft, BITS, d, When::Always, 28, e.bitmap);
    d = put::number(draft, BITS, d, When::Bit(e.bitmap, 0), 8, e.display_data);
    d = put::number(draft, BITS, d, When::Bit(e.bitmap, 1), 24, e.network);
    d = put::number(draft, BITS, d, When::Bit(e.bitmap, 2), 8, e.code);
    d = put::number(draft, BITS, d, When::Bit(e.bitmap, 3), 8, e.result);
    d = put::number(draft, BITS, d, When::Bit(e.bitmap, 4), 8, e.provider);
    d = put::number(draft, BITS, d, When::Bit(e.bitmap, 5), 8, e.not_ok_counter);
    d = put::number(draft, BITS, d, When::Bit(e.bitmap, 6), 24, e.serial);
    d = put::number(draft, BITS, d, When::Bit(e.bitmap, 7), 16, e.destination);
    put::number(draft, BITS, d, When::Bit(e.bitmap, 8), 16, e.location)
}

fn put_journey(draft: &mut [u64], c: Cursor, e: Event) -> Cursor
    requires { Drafted draft.old 232 (stand c) }
    ensures { Given 232 (numbers_of e) (take 12 (drop 12 event)) (take 12 (numbers_of e)) draft.old (stand c) (take 24 (numbers_of e)) draft.new (stand result) }
{
    let mut d = put::number(draft, BITS, c, When::Bit(e.bitmap, 9), 8, e.gate);
    d = put::number(draft, BITS, d, When::Bit(e.bitmap, 10), 16, e.device);
    d = put::number(draft, BITS, d, When::Bit(e.bitmap, 11), 16, e.route);
    d = put::number(draft, BITS, d, When::Bit(e.bitmap, 12), 8, e.route_variant);
    d = put::number(draft, BITS, d, When::Bit(e.bitmap, 13), 16, e.journey_run);
    d = put::number(draft, BITS, d, When::Bit(e.bitmap, 14), 16, e.vehicle);
    d = put::number(draft, BITS, d, When::Bit(e.bitmap, 15), 8, e.vehicle_class);
    d = put::number(draft, BITS, d, When::Bit(e.bitmap, 16), 5, e.location_type);
    d = put::never(BITS, d, When::Bit(e.bitmap, 17), 240);
    d = put::number(
        draft,
        BITS,
        d,
        When::Bit(e.bitmap, 18),
        16,
        e.location_reference,
    );
    d = put::number(draft, BITS, d, When::Bit(e.bitmap, 19), 8, e.interchanges);
    put::number(
        draft,
        BITS,
        d,
        When::Bit(e.bitmap, 20),
        16,
        e.period_journeys,
    )
}

fn put_account(draft: &mut [u64], c: Cursor, e: Event) -> Cursor
    requires { Drafted draft.old 232 (stand c) }
    ensures { Given 232 (numbers_of e) (drop 24 event) (take 24 (numbers_of e)) draft.old (stand c) (numbers_of e) draft.new (stand result) }
{
    let mut d = put::number(
        draft,
        BITS,
        c,
        When::Bit(e.bitmap, 21),
        16,
        e.total_journeys,
    );
    d = put::number(draft, BITS, d, When::Bit(e.bitmap, 22), 16, e.distance);
    d = put::number(draft, BITS, d, When::Bit(e.bitmap, 23), 16, e.price);
    d = put::number(draft, BITS, d, When::Bit(e.bitmap, 24), 16, e.price_unit);
    d = put::at_most(
        draft,
        BITS,
        d,
        When::Bit(e.bitmap, 25),
        5,
        Event::LAST_POINTER,
        e.pointer,
    );
    d = put::number(draft, BITS, d, When::Bit(e.bitmap, 26), 16, e.authenticator);
    d = put::number(draft, BITS, d, When::Bit(e.bitmap, 27), 5, e.data_bitmap);
    let inner = e.data_bitmap;
    d = put::number(draft, BITS, d, When::Bit(inner, 0), 14, e.first_date);
    d = put::at_most(
        draft,
        BITS,
        d,
        When::Bit(inner, 1),
        11,
        LAST_MINUTE,
        e.first_minute,
    );
    d = put::number(draft, BITS, d, When::Bit(inner, 2), 1, e.simulation);
    d = put::number(draft, BITS, d, When::Bit(inner, 3), 2, e.trip);
    put::number(draft, BITS, d, When::Bit(inner, 4), 2, e.direction)
}
