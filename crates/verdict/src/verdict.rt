// The check's answer, of a module that was read.
ghost use Rattle.std.specs.Prelude.{◌≡◌};
ghost use Rattle.module.specs.Tables.{module_of};
ghost use Rattle.request.specs.Request.{request_of};
ghost use Rattle.request.specs.Context.{context_of};
ghost use Rattle.checking.specs.Check.{meaning_by, answer_to};
ghost use Rattle.checking.specs.Word.{said};
ghost use Rattle.access.specs.Laid.{WasRead};
ghost use Rattle.verdict.specs.Checks.{Working, Asked, Marked, MarksChecked, ReportChecked};

use crate::heard::{Heard, hear};
use crate::judged::unjudged;
use crate::tables::fill_tables;
use access::file::File;
use backward::marked::MarkedSubject;
use checking::firsts::fill_firsts;
use checking::shape::marks_shape;
use checking::words::Verdict;
use context::remove::TYPE_WORDS;
use field::refusal::Refusal;
use judge::subject::Subject;
use rounds::settle::settle;

// Marks that have the function's shape: whether it is judged, and then the rounds.
fn check_marks(
    file: &File,
    heard: Heard,
    types: &mut [u32],
    alike: &mut [u32],
    held: &mut [bool],
    paths: &mut [bool],
    firsts: &mut [u32],
    cells: &mut [u32],
    slots: &mut [u32],
    path: &mut [u32],
    marks: &[u8],
    context: &[u8],
) -> Verdict
    requires { Marked file.now.bytes file.now.t heard.function.0 types.old alike.old held.old paths.old firsts.old cells.old slots.old path.old heard.asked.globals heard.asked.value }
    ensures { MarksChecked file.now.bytes file.now.t heard.function.0 cells.old heard.asked.globals heard.asked.value marks.now context.now (said result) }
{
    let f = heard.function;
    fill_tables(file, f, types, alike, held, paths);
    let subject = Subject {
        file,
        f,
        types,
        alike,
        paths,
    };
    if let Some(verdict) = unjudged(&subject, held) {
        return verdict;
    }
    fill_firsts(file, f, firsts);
    let marked = MarkedSubject {
        subject: &subject,
        marks,
        firsts,
    };
    settle(&marked, cells, slots, path, heard.asked, context)
}

// The marks of f in the report buffer.
fn check_report(
    file: &File,
    heard: Heard,
    rows: &mut [u32],
    alike: &mut [u32],
    held: &mut [bool],
    paths: &mut [bool],
    firsts: &mut [u32],
    cells: &mut [u32],
    slots: &mut [u32],
    path: &mut [u32],
    report: &[u8],
    context: &[u8],
) -> Verdict
    requires { Asked file.now.bytes file.now.t heard.function.0 rows.old alike.old held.old paths.old firsts.old cells.old slots.old path.old heard.asked.globals heard.asked.value }
    ensures { ReportChecked (module_of file.now.bytes file.now.t) cells.old heard.function.0 heard.asked.globals heard.asked.value report.now context.now (said result) }
{
    let Ok(place) = marks_shape(file, heard.function, report) else {
        return Verdict::Refused(Refusal::MarksUnfit);
    };
    let n = file.types() as usize;
    let e = file.expressions(heard.function) as usize;
    // each table as long as what it is filled for
    check_marks(
        file,
        heard,
        &mut rows[..TYPE_WORDS * n],
        &mut alike[..n],
        &mut held[..n],
        &mut paths[..e],
        firsts,
        cells,
        slots,
        path,
        &report[place],
        context,
    )
}

// Nothing is written but the working arrays, of whatever contents.
pub fn check_read(
    file: &File,
    rows: &mut [u32],
    alike: &mut [u32],
    held: &mut [bool],
    paths: &mut [bool],
    firsts: &mut [u32],
    cells: &mut [u32],
    slots: &mut [u32],
    path: &mut [u32],
    request: &[u8],
    report: &[u8],
    context: &[u8],
) -> Verdict
    requires { WasRead file.now.bytes file.now.t × Working rows.old alike.old held.old paths.old firsts.old cells.old slots.old path.old }
    ensures { said result ≡ answer_to (meaning_by (module_of file.now.bytes file.now.t) report.now (request_of request.now) (context_of context.now)) }
{
    match hear(file, cells, request, context) {
        Err(refusal) => Verdict::Refused(refusal),
        Ok(heard) => check_report(
            file, heard, rows, alike, held, paths, firsts, cells, slots, path, report, context,
        ),
    }
}
