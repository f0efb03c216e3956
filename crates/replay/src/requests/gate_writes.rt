// apply, find and join.
use lines::answer::Answer;
use lines::scan::{BYTES, Words};

pub fn apply(mut words: Words, record: &mut [u8], out: &mut Answer) -> Option<()> {
    let mut writes = [0; BYTES];
    let writes = words.bytes(&mut writes)?;
    words.ends()?;
    let answer = gate::apply(record, writes);
    out.written(answer, record);
    Some(())
}

pub fn find(mut words: Words, present: &[u8], out: &mut Answer) -> Option<()> {
    let mut wanted = [0; BYTES];
    let mut write = [0; BYTES];
    let wanted = words.bytes(&mut wanted)?;
    let write = words.bytes(&mut write)?;
    words.ends()?;
    let answer = gate::find(present, wanted, write);
    out.written(answer, write);
    Some(())
}

pub fn join(mut words: Words, a: &[u8], out: &mut Answer) -> Option<()> {
    let mut b = [0; BYTES];
    let mut write = [0; BYTES];
    let b = words.bytes(&mut b)?;
    let write = words.bytes(&mut write)?;
    words.ends()?;
    let answer = gate::join(a, b, write);
    out.written(answer, write);
    Some(())
}
