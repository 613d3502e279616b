// Records: two letters, the body's length, and its fields.
ghost use Rattle.std.specs.Prelude.{◌≡◌, ◌*◌, ◌≤◌, get_or};
ghost use Rattle.module.specs.Record.{mark_of, known, body_at};

#[derive(Clone, Copy, Debug, PartialEq, Eq)]
pub enum Mark {
    TY,
    GV,
    FN,
    AR,
    LV,
    EX,
    BK,
    ST,
}

// The two letters of each, read as one field: the first is the low byte.
const TY: u16 = (b'T' as u16) + 256 * (b'Y' as u16);

const GV: u16 = (b'G' as u16) + 256 * (b'V' as u16);

const FN: u16 = (b'F' as u16) + 256 * (b'N' as u16);

const AR: u16 = (b'A' as u16) + 256 * (b'R' as u16);

const LV: u16 = (b'L' as u16) + 256 * (b'V' as u16);

const EX: u16 = (b'E' as u16) + 256 * (b'X' as u16);

const BK: u16 = (b'B' as u16) + 256 * (b'K' as u16);

const ST: u16 = (b'S' as u16) + 256 * (b'T' as u16);

// The mark that the two letters make, read as one field.
pub fn mark_of(letters: u16) -> Option<Mark>
    ensures { known result ≡ mark_of letters }
{
    match letters {
        TY => Some(Mark::TY),
        GV => Some(Mark::GV),
        FN => Some(Mark::FN),
        AR => Some(Mark::AR),
        LV => Some(Mark::LV),
        EX => Some(Mark::EX),
        BK => Some(Mark::BK),
        ST => Some(Mark::ST),
        _ => None,
    }
}

// The field j of the record at `at`, and 0 where it has none.
pub fn body(bytes: &[u8], at: u32, j: u32) -> u16
    ensures { result ≡ get_or (body_at bytes.now at) j 0 }
{
    let start = at as usize;
    let i = j as usize;
    let n = (field::field::get(bytes, start + 2) / 2) as usize;
    if i < n {
        return field::field::get(bytes, start + 4 + 2 * i);
    }
    0
}

// A record of a file: the file's bytes, where its mark stands, and the mark.
#[derive(Clone, Copy, Drop)]
pub struct Record<'a> {
    pub bytes: &'a [u8],
    pub at: u32,
    pub mark: Mark,
}

impl<'a> Record<'a> {
    // The field j, and 0 where it has none.
    pub fn field(&self, j: u32) -> u16
        ensures { result ≡ get_or (body_at self.now.bytes.now self.now.at) j 0 }
    {
        body(self.bytes, self.at, j)
    }
}

// The fields of a record that are still to be read: `left` of them, and the last of them ends at `end`.
#[derive(Clone, Copy, Debug, PartialEq, Eq)]
pub struct Fields {
    pub end: usize,
    pub left: usize,
    ghost inside: { 2 * left ≤ end },
}

impl Fields {
    ghost use Rattle.module.specs.Scan.{fields_in, split_in, SplitEnds};

    // The first of them and the others, where there is one.
    pub fn split_first(self, bytes: &[u8]) -> Option<(u16, Fields)>
        ensures split { fields_in bytes.now self ≡ split_in bytes.now result }
        ensures ends { SplitEnds self.end result }
    {
        if self.left == 0 {
            return None;
        }
        let first = field::field::get(bytes, self.end - 2 * self.left);
        let others = Fields {
            end: self.end,
            left: self.left - 1,
        };
        Some((first, others))
    }
}
