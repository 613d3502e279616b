// What a table says of a number.
ghost use Rattle.std.specs.Prelude.{◌≡◌};
ghost use Rattle.judge.specs.Marked.{marked};

// Whether the table marks n; nothing past its end.
pub fn is_marked(table: &[bool], n: u32) -> bool
    ensures { result ≡ marked table.now n }
{
    table.get(n as usize).copied().unwrap_or(false)
}
