// A module file by itself.
ghost use Rattle.std.specs.Prelude.{◌≡◌};
ghost use Rattle.boundary.specs.Answers.{read_number};

use module::tables::WORDS;
use reading::read::{HELD, SEEN, read};

// Whether the bytes are a module: 0, or the number by which they are refused.
#[unsafe(no_mangle)]
pub extern "C" fn tickingtor_read(bytes: &[u8]) -> u32
    ensures { result ≡ read_number bytes.now }
{
    let mut t: [u32; WORDS] = [0; WORDS];
    let mut seen: [u32; SEEN] = [0; SEEN];
    let mut held: [u32; HELD] = [0; HELD];
    match read(bytes, &mut t, &mut seen, &mut held) {
        Ok(()) => 0,
        Err(refusal) => u32::from(refusal),
    }
}
