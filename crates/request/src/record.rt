// The frame of a record, and its fields, which are read from the bytes that are left of it.
ghost use Rattle.std.specs.Prelude.{◌≡◌, ◌≤◌, ltb, length};
ghost use Rattle.request.specs.Fields.{framed};
ghost use Rattle.request.specs.Answers.{FieldRead};

// Whether no field is left.
pub fn ends(bytes: &[u8]) -> bool
    ensures { result ≡ ltb (length bytes.now) 2 }
{
    bytes.len() < 2
}

// The first field, where one is left, and the bytes behind it.
pub fn field(bytes: &[u8]) -> Option<(u16, &[u8])>
    ensures { FieldRead bytes.now result }
{
    let [low, high, rest @ ..] = bytes else {
        return None;
    };
    Some((u16::from_le_bytes([*low, *high]), rest))
}

// Whether the bytes are one record with the mark a, b, whose header has `head` bytes and says that the body has `long`.
#[tactic(auto, unfolding(crate::specs::Fields::framed))]
pub fn is_record(bytes: &[u8], a: u8, b: u8, head: usize, long: usize) -> bool
    requires { 2 ≤ head }
    ensures { result ≡ framed a b head long bytes.now }
{
    bytes.len() >= head
        && bytes[0] == a
        && bytes[1] == b
        && long == bytes.len() - head
        && long % 2 == 0
}
