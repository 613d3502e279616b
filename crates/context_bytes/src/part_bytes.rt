// A part where it stands in bytes: `get_subpart` and the tests of what is needed, by passing over what is before.
ghost use Rattle.context_bytes.specs.Found.{Readable};

use crate::find::find_entry;
use request::codes::{Code, part_code};

// The bytes begin with it, and it is at most `depth` deep.
#[derive(Clone, Copy, Drop)]
pub struct PartBytes<'a> {
    pub bytes: &'a [u8],
    pub depth: usize,
    pub ghost readable: { Readable bytes.now depth },
}

impl<'a> PartBytes<'a> {
    ghost use Rattle.std.specs.Prelude.{◌≡◌};
    ghost use Rattle.part.specs.PartReq.{get_subpart, is_all, is_exist};
    ghost use Rattle.context_bytes.specs.Subparts.{part_of, SubpartIs};

    // `get_subpart`
    pub fn get_subpart(&self, i: u32) -> Option<PartBytes<'a>>
        ensures { SubpartIs self.now.bytes.now (get_subpart (part_of self.now) i) result }
    {
        let (code, entries) = part_code(self.bytes, self.depth)?;
        match code {
            Code::All => Some(*self),
            Code::Exist => None,
            Code::Entries(n) => {
                let depth = self.depth - 1;
                let bytes = find_entry(entries, depth, n, i)?;
                Some(PartBytes { bytes, depth })
            }
        }
    }

    // Whether all is needed.
    pub fn is_all(&self) -> bool
        ensures { result ≡ is_all (part_of self.now) }
    {
        let Some((code, rest)) = part_code(self.bytes, self.depth) else {
            return false;
        };
        match code {
            Code::All => true,
            _ => false,
        }
    }

    // Whether no value is needed.
    pub fn is_exist(&self) -> bool
        ensures { result ≡ is_exist (part_of self.now) }
    {
        let Some((code, rest)) = part_code(self.bytes, self.depth) else {
            return false;
        };
        match code {
            Code::Exist => true,
            _ => false,
        }
    }
}
