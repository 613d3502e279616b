// What stands at the front of a buffer of totals.
ghost use Rattle.std.specs.Prelude.{◌≡◌};
ghost use Rattle.pruner.specs.Form.{is_fresh};
ghost use Rattle.pruner.specs.Reading.{RecordLength};

use field::field::read_word;
use request::record::is_record;

// the least buffer
pub const MIN_PRUNER: usize = 131072;

// Whether nothing was asked yet.
pub fn is_fresh(bytes: &[u8]) -> bool
    ensures { result ≡ is_fresh bytes.now }
{
    bytes.starts_with(&[0, 0])
}

// How long the record of totals is, its header included, or nothing where no such record stands at the front.
pub fn record_length(bytes: &[u8]) -> Option<usize>
    ensures { RecordLength bytes.now result }
{
    if bytes.len() < 6 {
        return None;
    }
    let long = read_word(bytes, 2) as usize;
    if MIN_PRUNER - 6 < long {
        return None;
    }
    let end = 6 + long;
    if bytes.len() < end {
        return None;
    }
    if is_record(&bytes[..end], b'P', b'N', 6, long) {
        return Some(end);
    }
    None
}
