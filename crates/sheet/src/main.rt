// Draws the layout sheet from the tables of the second reader: each structure's fields in card order.
#![tactic(auto)]

mod contracts;
mod draw;
mod holders;
mod list_lines;
mod record_lines;

use lab::layouts;
use std::io;

fn main(rt: HostRuntime) -> io::Result<()> {
    intro(&rt)?;
    record_lines::environment(&rt, &layouts::environment())?;
    holders::holder(&rt, &layouts::holder())?;
    record_lines::event(&rt, &layouts::event())?;
    list_lines::special_list(&rt, &layouts::special_list())?;
    list_lines::contract_list(&rt, &layouts::contract_list())?;
    contracts::carnet(&rt, &layouts::carnet())?;
    contracts::urban(&rt, &layouts::urban())
}

fn intro(rt: &impl Print) -> io::Result<()> {
    println!(rt; "# Layout sheet\n")?;
    println!(rt;
        "The fields of each structure in card order. A refusal is three numbers: why, the place and the field. The field is a"
    )?;
    println!(rt; "number of these tables where why is one of\n")?;
    println!(rt; "- 2: the field runs past the end;")?;
    println!(rt; "- 3: EnvData2 is marked;")?;
    println!(rt; "- 4: the field's number breaks its rule;")?;
    println!(rt;
        "- 7, when writing: the number is too wide for the field's bits, or not zero where the field is not there. Data of a"
    )?;
    println!(rt; "  contract that do not agree with its bitmap and type are field 9.\n")?;
    println!(rt;
        "With any other why, the 3 of a contract's type and the 7 of a margin the field is 0 and says nothing.\n"
    )?;
    println!(rt;
        "\"Bit 2 of field 1\": the field is there where that bit is one. Bit 0 of a bitmap is its last. `./run sheet` draws this"
    )?;
    println!(rt; "page from the tables of the second reader, and every check holds it to them.")
}
