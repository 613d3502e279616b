// A list of variables where it stands in bytes.
ghost use Rattle.context_bytes.specs.Found.{ListReadable};

use crate::find::find_variable;
use crate::part_bytes::PartBytes;
use field::limits::MAX_DEPTH;

// The bytes begin with it.
#[derive(Clone, Copy, Drop)]
pub struct VariablesBytes<'a> {
    pub bytes: &'a [u8],
    pub ghost readable: { ListReadable bytes.now },
}

impl<'a> VariablesBytes<'a> {
    ghost use Rattle.part.specs.PartReq.{get_subpart};
    ghost use Rattle.context.specs.RequiredContext.{variable};
    ghost use Rattle.context_bytes.specs.Subparts.{variables_of, SubpartIs};

    // The part of the variable i.
    pub fn get(&self, i: u32) -> Option<PartBytes<'a>>
        ensures { SubpartIs self.now.bytes.now (get_subpart (variables_of self.now) (variable i)) result }
    {
        let bytes = find_variable(self.bytes, i)?;
        let depth = MAX_DEPTH;
        Some(PartBytes { bytes, depth })
    }
}
