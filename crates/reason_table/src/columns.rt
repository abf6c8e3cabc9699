// Columns by their names (document 01, 'Rows of settings'; document 02, E5).
ghost use Rattle.std.specs.Prelude.{◌≡◌, true, false, length, MatchOption};
ghost use Rattle.std.proofs.lemmas.List.Edits.{sets};
ghost use Rattle.reason_model.specs.Reasons.{named, column_name};

use buffer::put_byte;
use decimal::put_number;

// The names, in the columns' order. The first column is 1.
static NAMES: [&[u8]; 13] = [
    b"BO", b"SO", b"H", b"NR", b"NE", b"OWN", b"SINK", b"BURST", b"RATE", b"HEAD", b"DATA", b"ACK",
    b"LOSS",
];

// The name of a column, where it has one.
pub fn name(column: u32) -> Option<&'static [u8]>
    ensures { MatchOption result (named column ≡ false) (λ text. (named column ≡ true) × (text.now ≡ column_name column)) }
{
    match column {
        1..=13 => Some(NAMES[column as usize - 1]),
        _ => None,
    }
}

// Puts the name of a column at a position, or its number where it has no name, and answers how long it is.
pub fn put_column(out: &mut [u8], at: usize, column: u32) -> usize
    ensures value { result ≡ length (column_name column) }
    ensures out_after { out.new ≡ sets out.old at (column_name column) }
{
    match name(column) {
        Some(text) => put_name(out, at, text),
        None => put_number(out, at, u64::from(column)),
    }
}

// Puts a name at a position, as far as there is room, and answers how long it is. Byte by byte: names are short, and bytes that a table points
// to, copied at once, would have the library for C ask for `memmove`.
fn put_name(out: &mut [u8], at: usize, name: &[u8]) -> usize
    ensures value { result ≡ length name.now }
    ensures out_after { out.new ≡ sets out.old at name.now }
{
    for (k, byte) in name.iter().enumerate() {
        put_byte(out, at, k, *byte);
    }
    name.len()
}
