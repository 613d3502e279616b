// The lowest statement to blame.
ghost use Rattle.std.specs.Prelude.{◌≡◌, List, ℕ};
ghost use Rattle.clearance.specs.Tree.{body_tree};
ghost use Rattle.clearance.specs.Judged.{blamed_statement};
ghost use Rattle.judge.specs.Blamed.{blamed};
ghost use Rattle.judge.specs.Subject.{scope_of, function_in};

use crate::blocks::strays;
use crate::lower::lower_of;
use judge::subject::Subject;

// A statement that does not fit, or leaves where it is not allowed, whatever the marks.
pub fn blamed_statement(subject: &Subject) -> Option<u32>
    ensures { (marks : List ℕ) → blamed result ≡ blamed_statement (scope_of subject.now) (body_tree (function_in subject.now) marks) }
{
    let unfit = subject.unfit_statement();
    lower_of(unfit, strays(subject.file, subject.f))
}
