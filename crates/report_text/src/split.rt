// Where the input is split.
ghost use Rattle.std.specs.Prelude.{◌≡◌};
ghost use Rattle.report_text.specs.Split.{module_bytes};

use field::field::get;
use field::limits::MAX_BYTES;

// So much of its input the program reads.
pub const MAX_INPUT: usize = MAX_BYTES + 4 + 65535 + 1;

// How many bytes stand before the request: all where there is none.
pub fn split(input: &[u8]) -> usize
    ensures { result ≡ module_bytes input.now 0 }
{
    let n = input.len();
    let mut at = 0;
    // Stays: a record says where the next begins, so no range counts them. An iterator of records would be a struct with the bytes that are left and a
    // `next`, whose contract says these three tests and their ends once more; this loop, its one user, would still count the bytes.
    while 4 <= n - at {
        if input[at..].starts_with(b"RQ") {
            return at;
        }
        let long = 4 + (get(input, at + 2) as usize);
        if n - at < long {
            return n;
        }
        at += long;
    }
    n
}
