// Places in a text.
ghost use Rattle.std.specs.Prelude.{◌+◌, ◌≤◌, ◌^◌, length};

/// Where a line begins: the bytes from there on, how many stand before them, and the line's number.
#[derive(Clone, Copy)]
pub struct Place<'a> {
    pub rest: &'a [u8],
    pub at: usize,
    pub line: u64,
    ghost few_lines: { line + length rest.now ≤ 2 ^ 32 },
    ghost few_bytes: { at + length rest.now ≤ 2 ^ 32 + line },
}
