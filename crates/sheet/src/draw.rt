// The lines of the sheet.
use lab::row;
use std::io;

// The head of a structure's table.
pub fn head(rt: &impl Print, name: &str, fields: usize) -> io::Result<()> {
    print!(rt;
        "\n## {name}: {fields} fields\n\n| field | name | bits | when it is there | rule |\n|---|---|---|---|---|\n"
    )
}

// A row's line.
pub fn line(rt: &impl Print, rows: &[u64], field: usize, name: &str) -> io::Result<()> {
    print!(rt; "| {field} | {name}")?;
    say_row(rt, rows, field)
}

// The line of a row in one of several entries, which are counted from 1.
pub fn entry_line(
    rt: &impl Print,
    rows: &[u64],
    field: usize,
    name: &str,
    entry: usize,
) -> io::Result<()> {
    print!(rt; "| {field} | {name} {entry}")?;
    say_row(rt, rows, field)
}

fn say_row(rt: &impl Print, rows: &[u64], field: usize) -> io::Result<()> {
    if let Some(&row) = rows.get(field) {
        print!(rt; " | ")?;
        say_bits(rt, row)?;
        print!(rt; " | ")?;
        say_when(rt, rows, row)?;
        print!(rt; " | ")?;
        say_rule(rt, row)?;
        println!(rt; " |")?;
    }
    Ok(())
}

fn say_bits(rt: &impl Print, row: u64) -> io::Result<()> {
    print!(rt; "{}", row::bits(row))?;
    if row::letters(row) != 0 {
        print!(rt; ": {} letters of {}", row::letters(row), row::width(row))?;
    }
    if row::rule(row) == row::rule(row::TARIFF) {
        print!(rt; ": 4, 8 and 4")?;
    }
    Ok(())
}

fn say_when(rt: &impl Print, rows: &[u64], row: u64) -> io::Result<()> {
    let when = row::when(row);
    let field = field_of(rows, row::slot(row));
    if when == row::when(row::WHEN_BIT) {
        print!(rt; "bit {} of field {field}", row::element(row))
    } else if when == row::when(row::WHEN_ABOVE) {
        print!(rt; "field {field} is above {}", row::element(row))
    } else {
        print!(rt; "always")
    }
}

// The field that a slot's number is of.
fn field_of(rows: &[u64], slot: u64) -> usize {
    let mut left = slot;
    for (field, row) in rows.iter().enumerate() {
        let boxes = row::boxes(*row);
        if left < boxes {
            return field;
        }
        left -= boxes;
    }
    rows.len()
}

fn say_rule(rt: &impl Print, row: u64) -> io::Result<()> {
    let rule = row::rule(row);
    if rule == row::rule(row::AT_MOST) {
        print!(rt; "at most {}", row::limit(row))
    } else if rule == row::rule(row::AT_MOST_N) {
        print!(rt; "at most N, the number of contract records")
    } else if rule == row::rule(row::TARIFF) {
        print!(rt; "the priority is not 13")
    } else if rule == row::rule(row::NO_SECOND) {
        print!(rt; "bit 1, EnvData2, is zero")
    } else {
        Ok(())
    }
}
