// The types of a module that was read as a table of numbers, a row for each, which is how crate `context` takes them.
#![tactic(auto)]

ghost use Rattle.std.specs.Prelude.{◌≡◌, ◌*◌, ◌≤◌, length};
ghost use Rattle.field.specs.Limits.{max_types};
ghost use Rattle.module.specs.Tables.{module_of};
ghost use Rattle.context.specs.Types.{type_words, types_of, AllSized};

use access::file::File;
use context::remove::TYPE_WORDS;
use module::handles::TypeHandle;

pub mod typed;

pub fn fill(file: &File, table: &mut [u32])
    requires table_len { length table.old ≡ type_words * length (module_of file.now.bytes file.now.t).types }
    requires table_len_bound { length table.old ≤ type_words * max_types }
    requires all_sized { AllSized (module_of file.now.bytes file.now.t).types }
    ensures { types_of table.new ≡ (module_of file.now.bytes file.now.t).types }
{
    for (i, word) in table.iter_mut().enumerate() {
        let row = (i / TYPE_WORDS) as u32;
        let field = (i % TYPE_WORDS) as u32;
        *word = file.type_field(TypeHandle(row), field) as u32;
    }
}
