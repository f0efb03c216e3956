// The layouts of the card's structures, a line a row in card order, as document 01 has them under "Layouts" and "Numbers with a
// range". A line is the width of the field's box, with what row.rt says may be added; then the slot of its number, from 0, and its
// name. [e] is the element of the bitmap that marks it.
#![tactic(auto, unfolding(crate::specs::Layout::boxes_of, crate::specs::Layout::cond_of, crate::specs::Layout::rule_of, rows::specs::Table::Environment::environment, rows::specs::Table::Event::event, rows::specs::Table::Holder::holder, rows::specs::Table::Contract::head, rows::specs::Table::Contract::data42, rows::specs::Table::Contract::data50, rows::specs::Table::Contract::contract42, rows::specs::Table::Contract::contract50, rows::specs::Table::BestContracts::contract_list, rows::specs::Table::Special::special_list))]

ghost use Rattle.std.specs.Prelude.{◌≡◌, ℕ, map};
ghost use Rattle.rows.specs.Table.Environment.{environment};
ghost use Rattle.rows.specs.Table.Event.{event};
ghost use Rattle.rows.specs.Table.Holder.{holder};
ghost use Rattle.rows.specs.Table.Contract.{contract42, contract50};
ghost use Rattle.rows.specs.Table.BestContracts.{contract_list};
ghost use Rattle.rows.specs.Table.Special.{special_list};
ghost use Rattle.lab.specs.Layout.{row_of};

use crate::row::{
    AT_MOST, AT_MOST_N, BIT, ENTRY, LETTERS, LIMIT, NO_SECOND, SLOT, TARIFF, WHEN_ABOVE, WHEN_BIT,
};

// The last minute of a day.
const MINUTE: u64 = AT_MOST + LIMIT * 1439;

// The highest number of a residence, a work place and a study place.
const PLACE: u64 = AT_MOST + LIMIT * 99999;

// Environment. Its fields are marked in the bitmap of slot 1.
const IN_ENVIRONMENT: u64 = WHEN_BIT + SLOT * 1;

const ENVIRONMENT: [u64; 10] = [
    6, // 0: version
    7, // 1: bitmap
    24 + IN_ENVIRONMENT + BIT * 0, // 2: [0] network
    8 + IN_ENVIRONMENT + BIT * 1, // 3: [1] issuer
    14 + IN_ENVIRONMENT + BIT * 2, // 4: [2] end date
    11 + IN_ENVIRONMENT + BIT * 3, // 5: [3] pay method
    16 + IN_ENVIRONMENT + BIT * 4, // 6: [4] authenticator
    32 + IN_ENVIRONMENT + BIT * 5, // 7: [5] select list
    2 + IN_ENVIRONMENT + BIT * 6 + NO_SECOND, // 8: [6] EnvData, a bitmap
    1 + WHEN_BIT + SLOT * 8 + BIT * 0, // 9: its [0] card status
];

// Event, of the journal and of the special events. Its fields are marked in the bitmap of slot 2, those of the data in slot 30.
const IN_EVENT: u64 = WHEN_BIT + SLOT * 2;

const IN_EVENT_DATA: u64 = WHEN_BIT + SLOT * 30;

const EVENT: [u64; 36] = [
    14, // 0: date
    11 + MINUTE, // 1: minute
    28, // 2: bitmap
    8 + IN_EVENT + BIT * 0, // 3: [0] display data
    24 + IN_EVENT + BIT * 1, // 4: [1] network
    8 + IN_EVENT + BIT * 2, // 5: [2] event code
    8 + IN_EVENT + BIT * 3, // 6: [3] result
    8 + IN_EVENT + BIT * 4, // 7: [4] provider
    8 + IN_EVENT + BIT * 5, // 8: [5] not-ok counter
    24 + IN_EVENT + BIT * 6, // 9: [6] serial number
    16 + IN_EVENT + BIT * 7, // 10: [7] destination
    16 + IN_EVENT + BIT * 8, // 11: [8] location
    8 + IN_EVENT + BIT * 9, // 12: [9] gate
    16 + IN_EVENT + BIT * 10, // 13: [10] device
    16 + IN_EVENT + BIT * 11, // 14: [11] route
    8 + IN_EVENT + BIT * 12, // 15: [12] route variant
    16 + IN_EVENT + BIT * 13, // 16: [13] journey run
    16 + IN_EVENT + BIT * 14, // 17: [14] vehicle
    8 + IN_EVENT + BIT * 15, // 18: [15] vehicle class
    5 + IN_EVENT + BIT * 16, // 19: [16] location type
    240 + IN_EVENT + BIT * 17, // 20: [17] employee, which never fits
    16 + IN_EVENT + BIT * 18, // 21: [18] location reference
    8 + IN_EVENT + BIT * 19, // 22: [19] interchanges
    16 + IN_EVENT + BIT * 20, // 23: [20] period journeys
    16 + IN_EVENT + BIT * 21, // 24: [21] total journeys
    16 + IN_EVENT + BIT * 22, // 25: [22] distance
    16 + IN_EVENT + BIT * 23, // 26: [23] price
    16 + IN_EVENT + BIT * 24, // 27: [24] price unit
    5 + IN_EVENT + BIT * 25 + AT_MOST + LIMIT * 19, // 28: [25] contract pointer: 0 none, 16 to 19 simple rights
    16 + IN_EVENT + BIT * 26, // 29: [26] authenticator
    5 + IN_EVENT + BIT * 27, // 30: [27] data, a bitmap
    14 + IN_EVENT_DATA + BIT * 0, // 31: its [0] date of the first boarding
    11 + IN_EVENT_DATA + BIT * 1 + MINUTE, // 32: its [1] minute of it
    1 + IN_EVENT_DATA + BIT * 2, // 33: its [2] simulation
    2 + IN_EVENT_DATA + BIT * 3, // 34: its [3] trip
    2 + IN_EVENT_DATA + BIT * 4, // 35: its [4] direction
];

// Holder, in an area of 1 to 4 records. Its fields are marked in the bitmap of slot 0; those of the name, the birth, the profiles and
// the data each in a bitmap of their own.
const IN_HOLDER: u64 = WHEN_BIT + SLOT * 0;

const IN_NAME: u64 = WHEN_BIT + SLOT * 1;

const IN_BIRTH: u64 = WHEN_BIT + SLOT * 36;

const PROFILE: u64 = WHEN_ABOVE + SLOT * 81;

const IN_HOLDER_DATA: u64 = WHEN_BIT + SLOT * 98;

const HOLDER: [u64; 41] = [
    8, // 0: bitmap
    2 + IN_HOLDER + BIT * 0, // 1: [0] name, a bitmap
    5 + LETTERS * 17 + IN_NAME + BIT * 0, // 2 to 18: its [0] surname
    5 + LETTERS * 17 + IN_NAME + BIT * 1, // 19 to 35: its [1] forename
    2 + IN_HOLDER + BIT * 1, // 36: [1] birth, a bitmap
    32 + IN_BIRTH + BIT * 0, // 37: its [0] date
    5 + LETTERS * 23 + IN_BIRTH + BIT * 1, // 38 to 60: its [1] place
    5 + LETTERS * 17 + IN_HOLDER + BIT * 2, // 61 to 77: [2] birth name
    32 + IN_HOLDER + BIT * 3, // 78: [3] id
    24 + IN_HOLDER + BIT * 4, // 79: [4] country
    32 + IN_HOLDER + BIT * 5, // 80: [5] company
    4 + IN_HOLDER + BIT * 6 + AT_MOST + LIMIT * 4, // 81: [6] profile count
    3 + PROFILE + ENTRY * 0, // 82: profile 0, a bitmap
    24 + WHEN_BIT + SLOT * 82 + BIT * 0, // 83: its [0] network
    8 + WHEN_BIT + SLOT * 82 + BIT * 1, // 84: its [1] number
    14 + WHEN_BIT + SLOT * 82 + BIT * 2, // 85: its [2] date
    3 + PROFILE + ENTRY * 1, // 86: profile 1, a bitmap
    24 + WHEN_BIT + SLOT * 86 + BIT * 0, // 87: its [0] network
    8 + WHEN_BIT + SLOT * 86 + BIT * 1, // 88: its [1] number
    14 + WHEN_BIT + SLOT * 86 + BIT * 2, // 89: its [2] date
    3 + PROFILE + ENTRY * 2, // 90: profile 2, a bitmap
    24 + WHEN_BIT + SLOT * 90 + BIT * 0, // 91: its [0] network
    8 + WHEN_BIT + SLOT * 90 + BIT * 1, // 92: its [1] number
    14 + WHEN_BIT + SLOT * 90 + BIT * 2, // 93: its [2] date
    3 + PROFILE + ENTRY * 3, // 94: profile 3, a bitmap
    24 + WHEN_BIT + SLOT * 94 + BIT * 0, // 95: its [0] network
    8 + WHEN_BIT + SLOT * 94 + BIT * 1, // 96: its [1] number
    14 + WHEN_BIT + SLOT * 94 + BIT * 2, // 97: its [2] date
    12 + IN_HOLDER + BIT * 7, // 98: [7] data, a bitmap
    4 + IN_HOLDER_DATA + BIT * 0, // 99: its [0] card status
    4 + IN_HOLDER_DATA + BIT * 1, // 100: its [1] telepayment
    17 + IN_HOLDER_DATA + BIT * 2 + PLACE, // 101: its [2] residence
    6 + IN_HOLDER_DATA + BIT * 3, // 102: its [3] commercial id
    17 + IN_HOLDER_DATA + BIT * 4 + PLACE, // 103: its [4] work place
    17 + IN_HOLDER_DATA + BIT * 5 + PLACE, // 104: its [5] study place
    16 + IN_HOLDER_DATA + BIT * 6, // 105: its [6] sale device
    16 + IN_HOLDER_DATA + BIT * 7, // 106: its [7] authenticator
    14 + IN_HOLDER_DATA + BIT * 8, // 107: its [8] start date 1
    14 + IN_HOLDER_DATA + BIT * 9, // 108: its [9] start date 2
    14 + IN_HOLDER_DATA + BIT * 10, // 109: its [10] start date 3
    14 + IN_HOLDER_DATA + BIT * 11, // 110: its [11] start date 4
];

// Contract. The fields of the head are marked in the bitmap of slot 0, whose [6] marks the data as a whole.
const IN_CONTRACT: u64 = WHEN_BIT + SLOT * 0;

const IN_VALIDITY: u64 = WHEN_BIT + SLOT * 5;

const DATA: u64 = IN_CONTRACT + BIT * 6;

// Of type 42h.
const CARNET: [u64; 18] = [
    7, // 0: bitmap
    8 + IN_CONTRACT + BIT * 0, // 1: [0] provider
    16 + IN_CONTRACT + BIT * 1, // 2: [1] tariff
    32 + IN_CONTRACT + BIT * 2, // 3: [2] serial
    8 + IN_CONTRACT + BIT * 3, // 4: [3] class
    2 + IN_CONTRACT + BIT * 4, // 5: [4] validity, a bitmap
    14 + IN_VALIDITY + BIT * 0, // 6: its [0] start date
    14 + IN_VALIDITY + BIT * 1, // 7: its [1] end date
    8 + IN_CONTRACT + BIT * 5, // 8: [5] status
    11 + DATA, // 9: pay method
    16 + DATA, // 10: price
    14 + DATA, // 11: sale date
    11 + DATA + MINUTE, // 12: sale minute
    8 + DATA, // 13: agent
    16 + DATA, // 14: device
    1 + DATA, // 15: receipt
    8 + DATA, // 16: passengers
    14 + DATA, // 17: inhibition end
];

// Of type 50h. Groups of the data are marked in the bitmap of slot 13.
const GROUP: u64 = WHEN_BIT + SLOT * 13;

const URBAN: [u64; 45] = [
    7, // 0: bitmap
    8 + IN_CONTRACT + BIT * 0, // 1: [0] provider
    16 + IN_CONTRACT + BIT * 1, // 2: [1] tariff
    32 + IN_CONTRACT + BIT * 2, // 3: [2] serial
    8 + IN_CONTRACT + BIT * 3, // 4: [3] class
    2 + IN_CONTRACT + BIT * 4, // 5: [4] validity, a bitmap
    14 + IN_VALIDITY + BIT * 0, // 6: its [0] start date
    14 + IN_VALIDITY + BIT * 1, // 7: its [1] end date
    8 + IN_CONTRACT + BIT * 5, // 8: [5] status
    14 + DATA, // 9: end date
    14 + DATA, // 10: grey list
    16 + DATA, // 11: chrono
    2 + DATA, // 12: flag
    16 + DATA, // 13: bitmap of groups
    8 + GROUP + BIT * 0, // 14: group [0] agent
    14 + GROUP + BIT * 1, // 15: group [1] origin
    14 + GROUP + BIT * 1, // 16: group [1] destination
    14 + GROUP + BIT * 1, // 17: group [1] via
    16 + GROUP + BIT * 2, // 18: group [2] token 1
    16 + GROUP + BIT * 2, // 19: group [2] token 2
    14 + GROUP + BIT * 2, // 20: group [2] autoload start
    14 + GROUP + BIT * 2, // 21: group [2] autoload end
    8 + GROUP + BIT * 3, // 22: group [3] balance
    5 + GROUP + BIT * 3, // 23: group [3] last debit
    19 + GROUP + BIT * 4, // 24: group [4] purse
    16 + GROUP + BIT * 4, // 25: group [4] debit
    6 + GROUP + BIT * 5, // 26: group [5] passengers
    14 + GROUP + BIT * 6, // 27: group [6] period end
    6 + GROUP + BIT * 6, // 28: group [6] period balance
    6 + GROUP + BIT * 7, // 29: group [7] zone 1
    6 + GROUP + BIT * 7, // 30: group [7] zone 2
    6 + GROUP + BIT * 7, // 31: group [7] zone 3
    6 + GROUP + BIT * 8, // 32: group [8] sections
    6 + GROUP + BIT * 8, // 33: group [8] sections left
    14 + GROUP + BIT * 9, // 34: group [9] stop 1
    14 + GROUP + BIT * 9, // 35: group [9] stop 2
    14 + GROUP + BIT * 9, // 36: group [9] stop 3
    14 + GROUP + BIT * 9, // 37: group [9] stop 4
    14 + GROUP + BIT * 10, // 38: group [10] line 1
    14 + GROUP + BIT * 10, // 39: group [10] line 2
    14 + GROUP + BIT * 11, // 40: group [11] weekly limits
    14 + GROUP + BIT * 12, // 41: group [12] start date
    11 + GROUP + BIT * 13 + MINUTE, // 42: group [13] end minute
    4 + GROUP + BIT * 14, // 43: group [14] token
    4 + GROUP + BIT * 15, // 44: group [15] intermodal
];

// Contract list (BestContracts). The count is at most the card's number of contract records.
const COUNTED: u64 = WHEN_ABOVE + SLOT * 0;

const CONTRACT_LIST: [u64; 33] = [
    4 + AT_MOST_N, // 0: count
    3 + COUNTED + ENTRY * 0, // 1: entry 0, a bitmap
    24 + WHEN_BIT + SLOT * 1 + BIT * 0, // 2: its [0] network
    16 + WHEN_BIT + SLOT * 1 + BIT * 1 + TARIFF, // 3 to 5: its [1] tariff: key, type, priority
    5 + WHEN_BIT + SLOT * 1 + BIT * 2, // 6: its [2] pointer
    3 + COUNTED + ENTRY * 1, // 7: entry 1, a bitmap
    24 + WHEN_BIT + SLOT * 7 + BIT * 0, // 8: its [0] network
    16 + WHEN_BIT + SLOT * 7 + BIT * 1 + TARIFF, // 9 to 11: its [1] tariff: key, type, priority
    5 + WHEN_BIT + SLOT * 7 + BIT * 2, // 12: its [2] pointer
    3 + COUNTED + ENTRY * 2, // 13: entry 2, a bitmap
    24 + WHEN_BIT + SLOT * 13 + BIT * 0, // 14: its [0] network
    16 + WHEN_BIT + SLOT * 13 + BIT * 1 + TARIFF, // 15 to 17: its [1] tariff: key, type, priority
    5 + WHEN_BIT + SLOT * 13 + BIT * 2, // 18: its [2] pointer
    3 + COUNTED + ENTRY * 3, // 19: entry 3, a bitmap
    24 + WHEN_BIT + SLOT * 19 + BIT * 0, // 20: its [0] network
    16 + WHEN_BIT + SLOT * 19 + BIT * 1 + TARIFF, // 21 to 23: its [1] tariff: key, type, priority
    5 + WHEN_BIT + SLOT * 19 + BIT * 2, // 24: its [2] pointer
    3 + COUNTED + ENTRY * 4, // 25: entry 4, a bitmap
    24 + WHEN_BIT + SLOT * 25 + BIT * 0, // 26: its [0] network
    16 + WHEN_BIT + SLOT * 25 + BIT * 1 + TARIFF, // 27 to 29: its [1] tariff: key, type, priority
    5 + WHEN_BIT + SLOT * 25 + BIT * 2, // 30: its [2] pointer
    3 + COUNTED + ENTRY * 5, // 31: entry 5, a bitmap
    24 + WHEN_BIT + SLOT * 31 + BIT * 0, // 32: its [0] network
    16 + WHEN_BIT + SLOT * 31 + BIT * 1 + TARIFF, // 33 to 35: its [1] tariff: key, type, priority
    5 + WHEN_BIT + SLOT * 31 + BIT * 2, // 36: its [2] pointer
    3 + COUNTED + ENTRY * 6, // 37: entry 6, a bitmap
    24 + WHEN_BIT + SLOT * 37 + BIT * 0, // 38: its [0] network
    16 + WHEN_BIT + SLOT * 37 + BIT * 1 + TARIFF, // 39 to 41: its [1] tariff: key, type, priority
    5 + WHEN_BIT + SLOT * 37 + BIT * 2, // 42: its [2] pointer
    3 + COUNTED + ENTRY * 7, // 43: entry 7, a bitmap
    24 + WHEN_BIT + SLOT * 43 + BIT * 0, // 44: its [0] network
    16 + WHEN_BIT + SLOT * 43 + BIT * 1 + TARIFF, // 45 to 47: its [1] tariff: key, type, priority
    5 + WHEN_BIT + SLOT * 43 + BIT * 2, // 48: its [2] pointer
];

// Special event list.
const SPECIAL_LIST: [u64; 21] = [
    4 + AT_MOST + LIMIT * 4, // 0: count
    4 + COUNTED + ENTRY * 0, // 1: entry 0, a bitmap
    24 + WHEN_BIT + SLOT * 1 + BIT * 0, // 2: its [0] network
    8 + WHEN_BIT + SLOT * 1 + BIT * 1, // 3: its [1] provider
    2 + WHEN_BIT + SLOT * 1 + BIT * 2, // 4: its [2] seriousness
    5 + WHEN_BIT + SLOT * 1 + BIT * 3, // 5: its [3] pointer
    4 + COUNTED + ENTRY * 1, // 6: entry 1, a bitmap
    24 + WHEN_BIT + SLOT * 6 + BIT * 0, // 7: its [0] network
    8 + WHEN_BIT + SLOT * 6 + BIT * 1, // 8: its [1] provider
    2 + WHEN_BIT + SLOT * 6 + BIT * 2, // 9: its [2] seriousness
    5 + WHEN_BIT + SLOT * 6 + BIT * 3, // 10: its [3] pointer
    4 + COUNTED + ENTRY * 2, // 11: entry 2, a bitmap
    24 + WHEN_BIT + SLOT * 11 + BIT * 0, // 12: its [0] network
    8 + WHEN_BIT + SLOT * 11 + BIT * 1, // 13: its [1] provider
    2 + WHEN_BIT + SLOT * 11 + BIT * 2, // 14: its [2] seriousness
    5 + WHEN_BIT + SLOT * 11 + BIT * 3, // 15: its [3] pointer
    4 + COUNTED + ENTRY * 3, // 16: entry 3, a bitmap
    24 + WHEN_BIT + SLOT * 16 + BIT * 0, // 17: its [0] network
    8 + WHEN_BIT + SLOT * 16 + BIT * 1, // 18: its [1] provider
    2 + WHEN_BIT + SLOT * 16 + BIT * 2, // 19: its [2] seriousness
    5 + WHEN_BIT + SLOT * 16 + BIT * 3, // 20: its [3] pointer
];

// The tables, to be lent.
pub fn environment() -> [u64; 10]
    ensures { (n : ℕ) → map (row_of n) result ≡ environment }
{
    ENVIRONMENT
}

pub fn event() -> [u64; 36]
    ensures { (n : ℕ) → map (row_of n) result ≡ event }
{
    EVENT
}

pub fn holder() -> [u64; 41]
    ensures { (n : ℕ) → map (row_of n) result ≡ holder }
{
    HOLDER
}

pub fn carnet() -> [u64; 18]
    ensures { (n : ℕ) → map (row_of n) result ≡ contract42 }
{
    CARNET
}

pub fn urban() -> [u64; 45]
    ensures { (n : ℕ) → map (row_of n) result ≡ contract50 }
{
    URBAN
}

pub fn contract_list() -> [u64; 33]
    ensures { (n : ℕ) → map (row_of n) result ≡ contract_list n }
{
    CONTRACT_LIST
}

pub fn special_list() -> [u64; 21]
    ensures { (n : ℕ) → map (row_of n) result ≡ special_list }
{
    SPECIAL_LIST
}
