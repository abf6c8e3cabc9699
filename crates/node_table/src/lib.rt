// The lines of a surveyed tree's plan as numbers in a lent table: ten for each node, a row's nine and ROUTE.
//
// No public function has a `requires`: each takes a table of any length and any index, as equations with definitions of node_table_model
// say. Numbers are put as far as there is room; behind the end every number is 0.
#![tactic(auto)]

ghost use Rattle.std.specs.Prelude.{◌≡◌, ◌*◌, min};
ghost use Rattle.std.proofs.lemmas.List.Edits.{sets};
ghost use Rattle.node_table_model.specs.NodeRows.{node_numbers, node_in};

use line_table::{line_at, number_at, put_line, put_number};
use measure::Symbols;
use plan_model::NodeLine;

// Puts the ten numbers of line i, counted from 0. No tree has more than 254 nodes: a greater index counts as 254.
pub fn put_node(table: &mut [u64], i: usize, node: NodeLine)
    ensures { table.new ≡ sets table.old (10 * min i 254) (node_numbers node) }
{
    let at = 10 * i.min(254);
    put_line(table, at, node.line);
    put_number(table, at + 9, node.route.0);
}

// Line i, counted from 0, from its ten numbers in the table. No tree has more than 254 nodes: a greater index counts as 254.
#[tactic(auto, unfolding(node_table_model::specs::NodeRows::node_in))]
pub fn node_at(table: &[u64], i: usize) -> NodeLine
    ensures { result ≡ node_in table.now (10 * min i 254) }
{
    let at = 10 * i.min(254);
    NodeLine {
        line: line_at(table, at),
        route: Symbols(number_at(table, at + 9)),
    }
}
