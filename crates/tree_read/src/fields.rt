// The values of a node's line.
ghost use Rattle.std.specs.Prelude.{◌≡◌};
ghost use Rattle.tree_read_model.specs.Entries.{entry_in};

use tree_read_model::Entry;

// The four values of a line, without its LF, where they can be read. A value is the run of bytes between single spaces.
pub fn read_node(line: &[u8]) -> Option<Entry>
    ensures { result ≡ entry_in line.now }
{
    let mut values = line.split(|byte| *byte == b' ').map(decimal::read_number);
    let node = values.next()??;
    let parent = values.next()??;
    let burst = values.next()??;
    let rate = values.next()??;
    match values.next() {
        None => Some(Entry {
            node,
            parent,
            burst,
            rate,
        }),
        Some(_) => None,
    }
}
