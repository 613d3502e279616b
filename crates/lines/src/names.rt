// The name of a statement, by its kind.
ghost use Rattle.std.specs.Prelude.{◌≡◌};
ghost use Rattle.lines.specs.Text.{kind_name};
ghost use Rattle.lines.specs.Wrote.{Fits, Writes};

use crate::text::Text;
use module::kinds::StatementKind;

// An ImageAtomic has none.
fn name(kind: u16) -> &'static [u8]
    ensures { result.now ≡ kind_name kind }
{
    match StatementKind::try_from(kind) {
        Ok(StatementKind::Emit) => b"emit",
        Ok(StatementKind::Block) => b"blockstmt",
        Ok(StatementKind::If) => b"if",
        Ok(StatementKind::Switch) => b"switch",
        Ok(StatementKind::Loop) => b"loop",
        Ok(StatementKind::Continue) => b"continue",
        Ok(StatementKind::Return) => b"return",
        Ok(StatementKind::Kill) => b"kill",
        Ok(StatementKind::ControlBarrier) => b"barrier",
        Ok(StatementKind::MemoryBarrier) => b"barrier",
        Ok(StatementKind::ImageAtomic) => b"",
        Ok(StatementKind::Store) => b"store",
        Ok(StatementKind::Atomic) => b"atomic",
        Ok(StatementKind::Call) => b"call",
        Ok(StatementKind::ImageStore) => b"imagestore",
        Ok(StatementKind::RayQuery) => b"rayquery",
        Ok(StatementKind::WorkGroupUniformLoad) => b"rayquery",
        Ok(StatementKind::SubgroupBallot) => b"rayquery",
        Ok(StatementKind::SubgroupGather) => b"rayquery",
        Ok(StatementKind::SubgroupCollectiveOperation) => b"rayquery",
        Ok(StatementKind::Break) => b"break",
        Err(_) => b"break",
    }
}

pub fn write_name(text: &mut Text, kind: u16)
    requires { Fits text.old.at (kind_name kind) }
    ensures { Writes text.old text.new (kind_name kind) }
{
    text.word(name(kind));
}
