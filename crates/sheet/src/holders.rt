// Holder.
ghost use Rattle.std.specs.Prelude.{◌<◌};

use crate::draw;
use std::io;

pub fn holder(rt: &impl Print, rows: &[u64]) -> io::Result<()> {
    draw::head(rt, "Holder", rows.len())?;
    person(rt, rows)?;
    for k in 0..4 {
        profile(rt, rows, k)?;
    }
    data(rt, rows)
}

fn person(rt: &impl Print, rows: &[u64]) -> io::Result<()> {
    draw::line(rt, rows, 0, "bitmap")?;
    draw::line(rt, rows, 1, "name, a bitmap")?;
    draw::line(rt, rows, 2, "surname")?;
    draw::line(rt, rows, 3, "forename")?;
    draw::line(rt, rows, 4, "birth, a bitmap")?;
    draw::line(rt, rows, 5, "birth date")?;
    draw::line(rt, rows, 6, "birth place")?;
    draw::line(rt, rows, 7, "birth name")?;
    draw::line(rt, rows, 8, "id")?;
    draw::line(rt, rows, 9, "country")?;
    draw::line(rt, rows, 10, "company")?;
    draw::line(rt, rows, 11, "profile count")
}

fn profile(rt: &impl Print, rows: &[u64], k: usize) -> io::Result<()>
    requires { k < 4 }
{
    let first = 12 + 4 * k;
    draw::entry_line(rt, rows, first, "bitmap of profile", k + 1)?;
    draw::entry_line(rt, rows, first + 1, "network of profile", k + 1)?;
    draw::entry_line(rt, rows, first + 2, "number of profile", k + 1)?;
    draw::entry_line(rt, rows, first + 3, "date of profile", k + 1)
}

fn data(rt: &impl Print, rows: &[u64]) -> io::Result<()> {
    draw::line(rt, rows, 28, "data, a bitmap")?;
    draw::line(rt, rows, 29, "card status")?;
    draw::line(rt, rows, 30, "telepayment")?;
    draw::line(rt, rows, 31, "residence")?;
    draw::line(rt, rows, 32, "commercial id")?;
    draw::line(rt, rows, 33, "work place")?;
    draw::line(rt, rows, 34, "study place")?;
    draw::line(rt, rows, 35, "sale device")?;
    draw::line(rt, rows, 36, "authenticator")?;
    draw::line(rt, rows, 37, "start date 1")?;
    draw::line(rt, rows, 38, "start date 2")?;
    draw::line(rt, rows, 39, "start date 3")?;
    draw::line(rt, rows, 40, "start date 4")
}
