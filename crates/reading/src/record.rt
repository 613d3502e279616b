// One record of a file.
ghost use Rattle.std.proofs.Math.Option.{some};
ghost use Rattle.std.specs.Prelude.{◌<◌, ◌≤◌, length};
ghost use Rattle.module.specs.File.{body_next, mark_next, record_next};
ghost use Rattle.module.specs.Tables.{reading_of};
ghost use Rattle.reading.specs.Steps.{after, Between, Begun, Stepped, Kept};

use crate::add::add;
use crate::ends::ended_at;
use crate::room::Room;
use field::refusal::Refusal;
use module::checks::placed;
use module::record::{Record, mark_of};
use module::tables::Counts;

// The body of a record: 4, then 5.
fn body_next(rec: &Record, t: &mut [u32], seen: &mut [u32], c: Counts) -> Result<Counts, Refusal>
    requires { Begun rec.now.bytes.now t.old seen.old c rec.now.at rec.now.mark }
    ensures { Stepped rec.now.bytes.now t.new seen.new rec.now.at (body_next rec.now.bytes.now rec.now.at rec.now.mark (reading_of rec.now.bytes.now t.old c)) result }
{
    if rec.over(c) {
        return Err(Refusal::ModuleLimit);
    }
    let Some(()) = rec.fine(t, seen, c) else {
        return Err(Refusal::ValueNotAllowed);
    };
    Ok(add(rec, t, c))
}

// 3, then (where a function ends) 5, then the body.
fn mark_next(rec: &Record, t: &mut [u32], room: &mut Room, c: Counts) -> Result<Counts, Refusal>
    requires between { Between rec.now.bytes.now t.old room.old.seen.now c rec.now.at }
    requires at_in_bounds { after rec.now.bytes.now rec.now.at ≤ length rec.now.bytes.now }
    ensures step { Stepped rec.now.bytes.now t.new room.new.seen.now rec.now.at (mark_next rec.now.bytes.now rec.now.at (some rec.now.mark) (reading_of rec.now.bytes.now t.old c)) result }
    ensures kept { Kept room.old room.new }
{
    if placed(rec.mark, c.stage) {
        let d = ended_at(rec, t, room.held, c)?;
        return body_next(rec, t, room.seen, d);
    }
    Err(Refusal::MarkMisplaced)
}

// One record: 2, then the rest.
pub fn record_next(
    bytes: &[u8],
    t: &mut [u32],
    room: &mut Room,
    at: u32,
    c: Counts,
) -> Result<Counts, Refusal>
    requires between { Between bytes.now t.old room.old.seen.now c at }
    requires at_in_bounds { at < length bytes.now }
    ensures step { Stepped bytes.now t.new room.new.seen.now at (record_next bytes.now at (reading_of bytes.now t.old c)) result }
    ensures kept { Kept room.old room.new }
{
    let left = bytes.len() - (at as usize);
    if left < 4 {
        return Err(Refusal::RecordCut);
    }
    if left - 4 < (field::field::get(bytes, (at as usize) + 2) as usize) {
        return Err(Refusal::RecordCut);
    }
    let Some(mark) = mark_of(field::field::get(bytes, at as usize)) else {
        return Err(Refusal::MarkMisplaced);
    };
    mark_next(&Record { bytes, at, mark }, t, room, c)
}
