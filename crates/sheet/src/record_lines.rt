// Environment and Event.
use crate::draw;
use std::io;

pub fn environment(rt: &impl Print, rows: &[u64]) -> io::Result<()> {
    draw::head(rt, "Environment", rows.len())?;
    draw::line(rt, rows, 0, "version")?;
    draw::line(rt, rows, 1, "bitmap")?;
    draw::line(rt, rows, 2, "network")?;
    draw::line(rt, rows, 3, "issuer")?;
    draw::line(rt, rows, 4, "end date")?;
    draw::line(rt, rows, 5, "pay method")?;
    draw::line(rt, rows, 6, "authenticator")?;
    draw::line(rt, rows, 7, "select list")?;
    draw::line(rt, rows, 8, "EnvData, a bitmap")?;
    draw::line(rt, rows, 9, "card status")
}

pub fn event(rt: &impl Print, rows: &[u64]) -> io::Result<()> {
    draw::head(rt, "Event", rows.len())?;
    occasion(rt, rows)?;
    journey(rt, rows)?;
    account(rt, rows)
}

fn occasion(rt: &impl Print, rows: &[u64]) -> io::Result<()> {
    draw::line(rt, rows, 0, "date")?;
    draw::line(rt, rows, 1, "minute")?;
    draw::line(rt, rows, 2, "bitmap")?;
    draw::line(rt, rows, 3, "display data")?;
    draw::line(rt, rows, 4, "network")?;
    draw::line(rt, rows, 5, "event code")?;
    draw::line(rt, rows, 6, "result")?;
    draw::line(rt, rows, 7, "provider")?;
    draw::line(rt, rows, 8, "not-ok counter")?;
    draw::line(rt, rows, 9, "serial number")?;
    draw::line(rt, rows, 10, "destination")?;
    draw::line(rt, rows, 11, "location")
}

fn journey(rt: &impl Print, rows: &[u64]) -> io::Result<()> {
    draw::line(rt, rows, 12, "gate")?;
    draw::line(rt, rows, 13, "device")?;
    draw::line(rt, rows, 14, "route")?;
    draw::line(rt, rows, 15, "route variant")?;
    draw::line(rt, rows, 16, "journey run")?;
    draw::line(rt, rows, 17, "vehicle")?;
    draw::line(rt, rows, 18, "vehicle class")?;
    draw::line(rt, rows, 19, "location type")?;
    draw::line(rt, rows, 20, "employee, which never fits")?;
    draw::line(rt, rows, 21, "location reference")?;
    draw::line(rt, rows, 22, "interchanges")?;
    draw::line(rt, rows, 23, "period journeys")
}

fn account(rt: &impl Print, rows: &[u64]) -> io::Result<()> {
    draw::line(rt, rows, 24, "total journeys")?;
    draw::line(rt, rows, 25, "distance")?;
    draw::line(rt, rows, 26, "price")?;
    draw::line(rt, rows, 27, "price unit")?;
    draw::line(
        rt,
        rows,
        28,
        "contract pointer: 0 none, 16 to 19 simple rights",
    )?;
    draw::line(rt, rows, 29, "authenticator")?;
    draw::line(rt, rows, 30, "data, a bitmap")?;
    draw::line(rt, rows, 31, "date of the first boarding")?;
    draw::line(rt, rows, 32, "minute of the first boarding")?;
    draw::line(rt, rows, 33, "simulation")?;
    draw::line(rt, rows, 34, "trip")?;
    draw::line(rt, rows, 35, "direction")
}
