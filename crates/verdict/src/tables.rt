// The tables of a function and of its module's types.
ghost use Rattle.valid.specs.There.{There};
ghost use Rattle.verdict.specs.Tables.{Sized, Tables};

use access::file::File;
use judge::alike::fill_alike;
use judge::paths::fill_paths;
use judge::unsized_types::fill_unsized;
use module::handles::FunctionHandle;
use type_table::fill;

pub fn fill_tables(
    file: &File,
    f: FunctionHandle,
    types: &mut [u32],
    alike: &mut [u32],
    held: &mut [bool],
    paths: &mut [bool],
)
    requires { There file.now.bytes file.now.t f.0 × Sized file.now.bytes file.now.t f.0 types.old alike.old held.old paths.old }
    ensures { Tables file.now.bytes file.now.t f.0 types.new alike.new held.new paths.new }
{
    fill(file, types);
    fill_alike(types, alike);
    fill_unsized(types, held);
    fill_paths(file, f, paths);
}
