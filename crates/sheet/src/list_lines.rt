// Both lists.
ghost use Rattle.std.specs.Prelude.{◌<◌};

use crate::draw;
use std::io;

pub fn special_list(rt: &impl Print, rows: &[u64]) -> io::Result<()> {
    draw::head(rt, "Special event list", rows.len())?;
    draw::line(rt, rows, 0, "count")?;
    for k in 0..4 {
        special_entry(rt, rows, k)?;
    }
    Ok(())
}

fn special_entry(rt: &impl Print, rows: &[u64], k: usize) -> io::Result<()>
    requires { k < 4 }
{
    let first = 1 + 5 * k;
    draw::entry_line(rt, rows, first, "bitmap of entry", k + 1)?;
    draw::entry_line(rt, rows, first + 1, "network of entry", k + 1)?;
    draw::entry_line(rt, rows, first + 2, "provider of entry", k + 1)?;
    draw::entry_line(rt, rows, first + 3, "seriousness of entry", k + 1)?;
    draw::entry_line(rt, rows, first + 4, "pointer of entry", k + 1)
}

pub fn contract_list(rt: &impl Print, rows: &[u64]) -> io::Result<()> {
    draw::head(rt, "Contract list", rows.len())?;
    draw::line(rt, rows, 0, "count")?;
    for k in 0..8 {
        contract_entry(rt, rows, k)?;
    }
    Ok(())
}

fn contract_entry(rt: &impl Print, rows: &[u64], k: usize) -> io::Result<()>
    requires { k < 8 }
{
    let first = 1 + 4 * k;
    draw::entry_line(rt, rows, first, "bitmap of entry", k + 1)?;
    draw::entry_line(rt, rows, first + 1, "network of entry", k + 1)?;
    draw::entry_line(
        rt,
        rows,
        first + 2,
        "tariff (key, type, priority) of entry",
        k + 1,
    )?;
    draw::entry_line(rt, rows, first + 3, "pointer of entry", k + 1)
}
