// The printed plan of a surveyed tree from the numbers of its table, whatever the table holds (document 02, E3).
//
// No public function has a `requires`: each takes a table of any length and any numbers.
#![tactic(auto)]

ghost use Rattle.std.specs.Prelude.{◌≡◌, ◌≤◌, min, length};
ghost use Rattle.std.proofs.lemmas.List.Edits.{sets};
ghost use Rattle.report_model.specs.TreeText.{tree_text};
ghost use Rattle.node_table_model.specs.NodeRows.{nodes_in};

use node_table::node_at;
use report::{put_node_line, put_tree_header};
use report_length::node_line_length;

// No tree has more nodes.
const MOST_NODES: usize = 254;

// The header line's length.
const HEADER: usize = 62;

// Puts the text of the first lines of a table, of 254 at most, as far as there is room, and answers its length.
#[tactic(auto, using(crate::proofs::Paging::line_by_line))]
pub fn print(table: &[u64], nodes: usize, out: &mut [u8]) -> usize
    ensures value { result ≡ length (tree_text (nodes_in table.now (min nodes 254))) }
    ensures upper_bound { result ≤ 48576 }
    ensures out_after { out.new ≡ sets out.old 0 (tree_text (nodes_in table.now (min nodes 254))) }
{
    let mut end = put_tree_header(out);
    for v in 0..nodes.min(MOST_NODES) {
        end += put_node_line(out, end, node_at(table, v));
    }
    end
}

// The length of that text: nothing is put.
#[tactic(auto, using(crate::proofs::Paging::line_by_line))]
pub fn printed_length(table: &[u64], nodes: usize) -> usize
    ensures value { result ≡ length (tree_text (nodes_in table.now (min nodes 254))) }
    ensures upper_bound { result ≤ 48576 }
{
    let mut end = HEADER;
    for v in 0..nodes.min(MOST_NODES) {
        end += node_line_length(node_at(table, v));
    }
    end
}
