// Contract, of both types.
use crate::draw;
use std::io;

pub fn carnet(rt: &impl Print, rows: &[u64]) -> io::Result<()> {
    draw::head(rt, "Contract, type 42h (66)", rows.len())?;
    head(rt, rows)?;
    draw::line(rt, rows, 9, "pay method")?;
    draw::line(rt, rows, 10, "price")?;
    draw::line(rt, rows, 11, "sale date")?;
    draw::line(rt, rows, 12, "sale minute")?;
    draw::line(rt, rows, 13, "agent")?;
    draw::line(rt, rows, 14, "device")?;
    draw::line(rt, rows, 15, "receipt")?;
    draw::line(rt, rows, 16, "passengers")?;
    draw::line(rt, rows, 17, "inhibition end")
}

pub fn urban(rt: &impl Print, rows: &[u64]) -> io::Result<()> {
    draw::head(rt, "Contract, type 50h (80)", rows.len())?;
    head(rt, rows)?;
    terms(rt, rows)?;
    purse(rt, rows)?;
    places(rt, rows)?;
    limits(rt, rows)
}

fn head(rt: &impl Print, rows: &[u64]) -> io::Result<()> {
    draw::line(rt, rows, 0, "bitmap")?;
    draw::line(rt, rows, 1, "provider")?;
    draw::line(rt, rows, 2, "tariff")?;
    draw::line(rt, rows, 3, "serial")?;
    draw::line(rt, rows, 4, "class")?;
    draw::line(rt, rows, 5, "validity, a bitmap")?;
    draw::line(rt, rows, 6, "start date")?;
    draw::line(rt, rows, 7, "end date")?;
    draw::line(rt, rows, 8, "status")
}

fn terms(rt: &impl Print, rows: &[u64]) -> io::Result<()> {
    draw::line(rt, rows, 9, "end date of the data")?;
    draw::line(rt, rows, 10, "grey list")?;
    draw::line(rt, rows, 11, "chrono")?;
    draw::line(rt, rows, 12, "flag")?;
    draw::line(rt, rows, 13, "bitmap of groups")?;
    draw::line(rt, rows, 14, "agent")?;
    draw::line(rt, rows, 15, "origin")?;
    draw::line(rt, rows, 16, "destination")?;
    draw::line(rt, rows, 17, "via")
}

fn purse(rt: &impl Print, rows: &[u64]) -> io::Result<()> {
    draw::line(rt, rows, 18, "token 1")?;
    draw::line(rt, rows, 19, "token 2")?;
    draw::line(rt, rows, 20, "autoload start")?;
    draw::line(rt, rows, 21, "autoload end")?;
    draw::line(rt, rows, 22, "balance")?;
    draw::line(rt, rows, 23, "last debit")?;
    draw::line(rt, rows, 24, "purse")?;
    draw::line(rt, rows, 25, "debit")?;
    draw::line(rt, rows, 26, "passengers")
}

fn places(rt: &impl Print, rows: &[u64]) -> io::Result<()> {
    draw::line(rt, rows, 27, "period end")?;
    draw::line(rt, rows, 28, "period balance")?;
    draw::line(rt, rows, 29, "zone 1")?;
    draw::line(rt, rows, 30, "zone 2")?;
    draw::line(rt, rows, 31, "zone 3")?;
    draw::line(rt, rows, 32, "sections")?;
    draw::line(rt, rows, 33, "sections left")?;
    draw::line(rt, rows, 34, "stop 1")?;
    draw::line(rt, rows, 35, "stop 2")?;
    draw::line(rt, rows, 36, "stop 3")?;
    draw::line(rt, rows, 37, "stop 4")?;
    draw::line(rt, rows, 38, "line 1")?;
    draw::line(rt, rows, 39, "line 2")
}

fn limits(rt: &impl Print, rows: &[u64]) -> io::Result<()> {
    draw::line(rt, rows, 40, "weekly limits")?;
    draw::line(rt, rows, 41, "start date of the data")?;
    draw::line(rt, rows, 42, "end minute")?;
    draw::line(rt, rows, 43, "token")?;
    draw::line(rt, rows, 44, "intermodal")
}
