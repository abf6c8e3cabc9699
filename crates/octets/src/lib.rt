// Bytes in memory: where one stands, whether two parts are alike, and a copy of a part.
//
// No public function has a `requires`: each answers every argument, as its contract says.
#![tactic(auto)]

ghost use Rattle.std.specs.Prelude.{◌≡◌, ◌↔◌, ◌+◌, ◌≤◌, ◌++◌, true, length, take, drop, min};
ghost use Rattle.octets.specs.Bytes.{index_of};

// Where a byte stands first, from a position on: the text's end where it stands nowhere, and the position itself where that is behind
// the end.
pub fn find(text: &[u8], at: usize, byte: u8) -> usize
    ensures place { result ≡ at + index_of byte (drop at text.now) }
    ensures inside { at ≤ length text.now → result ≤ length text.now }
{
    let rest = text.get(at..).unwrap_or(&[]);
    at + rest.iter().position(|b| *b == byte).unwrap_or(rest.len())
}

// Whether two texts are alike.
pub fn same(a: &[u8], b: &[u8]) -> bool
    ensures alike { result ≡ true → a.now ≡ b.now }
    ensures told { a.now ≡ b.now → result ≡ true }
{
    a == b
}

// Copies a text to the front of memory, as far as there is room, and answers how many bytes that were.
pub fn copy(text: &[u8], out: &mut [u8]) -> usize
    ensures count { result ≡ min (length text.now) (length out.old) }
    ensures put { out.new ≡ take result text.now ++ drop result out.old }
{
    let n = text.len().min(out.len());
    out[..n].copy_from_slice(&text[..n]);
    n
}
