// Whether a function is judged: the lowest expression that is not, else the lowest statement.
ghost use Rattle.context.specs.Types.{types_of};
ghost use Rattle.judge.specs.Unsized.{UnsizedTable};
ghost use Rattle.verdict.specs.Tables.{JudgesOf};

use checking::words::Verdict;
use judge::subject::Subject;
use strays::blame::blamed_statement;

// The answer where something is not judged.
pub fn unjudged(subject: &Subject, held: &[bool]) -> Option<Verdict>
    requires { UnsizedTable (types_of subject.now.types.now) held.now }
    ensures { JudgesOf subject.now result }
{
    if let Some(e) = subject.blamed_expression(held) {
        return Some(Verdict::UnjudgedExpression(e));
    }
    let s = blamed_statement(subject)?;
    Some(Verdict::UnjudgedStatement(s))
}
