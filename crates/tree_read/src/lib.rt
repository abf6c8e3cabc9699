// A node list, line by line (document 02, E3): the line of names, and the four values of a node's line.
//
// No public function has a `requires`: each answers every argument, as an equation with a definition of tree_read_model says. Nothing is written
// anywhere.
#![tactic(auto)]

ghost use Rattle.std.specs.Prelude.{◌≡◌};
ghost use Rattle.tree_read_model.specs.Entries.{is_name_line};

pub mod fields; // the values of a line

// Whether a line, without its LF, is the line of names.
pub fn names_match(line: &[u8]) -> bool
    ensures { result ≡ is_name_line line.now }
{
    line == b"NODE PARENT BURST RATE".as_slice()
}
