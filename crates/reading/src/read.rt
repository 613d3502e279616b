// Reading a module: one pass over the bytes, record by record.
ghost use Rattle.std.specs.Prelude.{◌≡◌, ◌≤◌, length};
ghost use Rattle.field.specs.Limits.{max_bytes};
ghost use Rattle.field.specs.Refusal.{number_of};
ghost use Rattle.module.specs.File.{answer_of, ended};
ghost use Rattle.module.specs.Scan.{values};
ghost use Rattle.module.specs.Tables.{words, max_items, reading_of};
ghost use Rattle.reading.specs.Progress.{Progress};
ghost use Rattle.reading.specs.Reads.{Answered, Reads, Passed, no_counts};

use crate::ends::ended;
use crate::record::record_next;
use crate::room::Room;
use field::limits::MAX_BYTES;
use field::refusal::Refusal;
use module::tables::{Counts, HEAD, IN_TYPES, MAX_ITEMS, Row, put};

// The room that the caller lends: a mark for each value that a field may have, and a count for each block.
pub const SEEN: usize = 65536;

pub const HELD: usize = MAX_ITEMS;

// Before the first record.
fn no_counts(size: u32) -> Counts
    ensures { result ≡ no_counts size }
{
    Counts {
        stage: IN_TYPES,
        types: 0,
        globals: 0,
        functions: 0,
        row: Row {
            offset: size,
            ..Row::default()
        },
    }
}

// All records, up to the first that is refused.
fn records(bytes: &[u8], t: &mut [u32], room: &mut Room) -> Result<Counts, Refusal>
    requires bytes_len_bound { length bytes.now ≤ max_bytes }
    requires words_in_bounds { words ≤ length t.old }
    ensures { Passed bytes.now t.new result }
{
    room.seen.fill(0);
    let mut c = no_counts(bytes.len() as u32);
    let mut at: u32 = 0;
    // Stays: a record says where the next one begins. An iterator over them is a struct of the bytes and the place, and its `next` refuses a record that is
    // cut or has no mark; what the counts refuse would end the loop by `?` as it does now.
    while (at as usize) < bytes.len() {
        c = record_next(bytes, t, room, at, c)?;
        at += 4 + (field::field::get(bytes, (at as usize) + 2) as u32);
    }
    Ok(c)
}

// The end of the file is the end of its last function. The counts of the whole go into the tables.
fn finish(bytes: &[u8], t: &mut [u32], room: &mut Room, c: Counts) -> Result<(), Refusal>
    requires { Progress bytes.now t.old c (length bytes.now) }
    ensures { Answered bytes.now t.new (answer_of (ended (reading_of bytes.now t.old c))) (number_of result) }
{
    let d = ended(bytes, t, room.held, c)?;
    put(t, HEAD, d.types);
    put(t, HEAD + 1, d.globals);
    put(t, HEAD + 2, d.functions);
    Ok(())
}

// Reads any bytes into the tables, or says why they are refused.
pub fn read(bytes: &[u8], t: &mut [u32], seen: &mut [u32], held: &mut [u32]) -> Result<(), Refusal>
    requires words_in_bounds { words ≤ length t.old }
    requires values_in_bounds { values ≤ length seen.old }
    requires max_items_in_bounds { max_items ≤ length held.old }
    ensures { Reads bytes.now t.new (number_of result) }
{
    if MAX_BYTES < bytes.len() {
        return Err(Refusal::ModuleTooLong);
    }
    let mut room = Room { seen, held };
    let c = records(bytes, t, &mut room)?;
    finish(bytes, t, &mut room, c)
}

// The same with room of its own, which is gone when it ends.
pub fn read_module(bytes: &[u8], t: &mut [u32]) -> Result<(), Refusal>
    requires { words ≤ length t.old }
    ensures { Reads bytes.now t.new (number_of result) }
{
    let mut seen: [u32; SEEN] = [0; SEEN];
    let mut held: [u32; HELD] = [0; HELD];
    read(bytes, t, &mut seen, &mut held)
}
