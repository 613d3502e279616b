// All totals written from a walk's memory into a lent buffer: the body, function by function, and then the header before it.
ghost use Rattle.std.specs.Prelude.{◌≡◌, ◌++◌, ◌≤◌, ◌<◌, length, drop};
ghost use Rattle.module.specs.Tables.{module_of};
ghost use Rattle.request.specs.Written.{HasRoom, Writes};
ghost use Rattle.memory.specs.Memory.{read};
ghost use Rattle.block.specs.Standing.{total_in, functions_in};
ghost use Rattle.pruner.specs.Form.{min_pruner, write_total, write_totals, write_pruner};
ghost use Rattle.pruner.specs.Stored.{pruner_in, HasTotals};
ghost use Rattle.marks.specs.Report.{totals_of};

use crate::write::write_total;
use access::file::File;
use leave::leave::records_of;
use marks::places::range;
use memory::layout::{FUNCTIONS, GLOBALS, TOTALS};
use module::handles::FunctionHandle;
use request::write::write_variables;
use request::writer::Writer;

// The total of f, or 0.
fn write_function(
    file: &File,
    starts: &[u32],
    cells: &[u32],
    slots: &[u32],
    flags: &[bool],
    kept: &[u8],
    f: FunctionHandle,
    writer: &mut Writer,
)
    requires has_totals { HasTotals file.now.bytes file.now.t starts.now cells.now slots.now (totals_of flags.now kept.now) × (f.0 < length (module_of file.now.bytes file.now.t).functions) }
    requires fits { HasRoom writer.old (write_total (total_in (module_of file.now.bytes file.now.t) file.now.t (read cells.now slots.now) (totals_of flags.now kept.now) f.0)) }
    ensures { Writes writer.old writer.new (write_total (total_in (module_of file.now.bytes file.now.t) file.now.t (read cells.now slots.now) (totals_of flags.now kept.now) f.0)) }
{
    let i = f.0 as usize;
    if !flags[i] {
        return writer.field(0);
    }
    let records = records_of(file, f);
    let marks = &kept[range(starts, f)];
    let context = FUNCTIONS + 4 * i;
    let base = TOTALS + records.from;
    write_total(cells, slots, marks, context, base, records.n, writer);
}

fn write_functions(
    file: &File,
    starts: &[u32],
    cells: &[u32],
    slots: &[u32],
    flags: &[bool],
    kept: &[u8],
    writer: &mut Writer,
)
    requires has_totals { HasTotals file.now.bytes file.now.t starts.now cells.now slots.now (totals_of flags.now kept.now) }
    requires fits { HasRoom writer.old (write_totals (functions_in (module_of file.now.bytes file.now.t) file.now.t (read cells.now slots.now) (totals_of flags.now kept.now))) }
    ensures { Writes writer.old writer.new (write_totals (functions_in (module_of file.now.bytes file.now.t) file.now.t (read cells.now slots.now) (totals_of flags.now kept.now))) }
{
    for f in 0..file.functions() {
        write_function(
            file,
            starts,
            cells,
            slots,
            flags,
            kept,
            FunctionHandle(f),
            writer,
        );
    }
}

// The totals that memory has, from the first byte of the buffer on.
pub fn write_pruner(
    file: &File,
    starts: &[u32],
    cells: &[u32],
    slots: &[u32],
    flags: &[bool],
    kept: &[u8],
    out: &mut [u8],
)
    requires has_totals { HasTotals file.now.bytes file.now.t starts.now cells.now slots.now (totals_of flags.now kept.now) }
    requires min_pruner_in_bounds { (min_pruner ≤ length out.old) × (length (write_pruner (pruner_in file.now.bytes file.now.t cells.now slots.now (totals_of flags.now kept.now))) ≤ min_pruner) }
    ensures { out.new ≡ write_pruner (pruner_in file.now.bytes file.now.t cells.now slots.now (totals_of flags.now kept.now)) ++ drop (length (write_pruner (pruner_in file.now.bytes file.now.t cells.now slots.now (totals_of flags.now kept.now)))) out.old }
{
    let mut writer = Writer { out, at: 6 };
    write_variables(cells, slots[GLOBALS], &mut writer);
    write_functions(file, starts, cells, slots, flags, kept, &mut writer);
    writer.head(b'P', b'N');
}
