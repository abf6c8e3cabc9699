// How long the lines of a printed plan are (document 01, 'The printed plan'; document 02, E3): nothing is put.
//
// No public function has a `requires`.
#![tactic(auto)]

ghost use Rattle.std.specs.Prelude.{◌≡◌, [], ◌∷◌, ◌++◌, ◌*◌, ◌≤◌, length};
ghost use Rattle.report_model.specs.Text.{line_text};
ghost use Rattle.report_model.specs.TreeText.{node_text};
ghost use Rattle.report_model.specs.Inner.{spaced};

use decimal::digits_of;
use plan_model::{Line, NodeLine};
use report::numbers_of;

// The length of a node's line and its LF.
pub fn node_line_length(node: NodeLine) -> usize
    ensures value { result ≡ length (node_text node ++ 10 ∷ []) }
    ensures upper_bound { result ≤ 191 }
{
    line_length(node.line) + spaced_length(&[node.route.0]) + 1
}

// The length of a line, without its LF: a letter, and numbers.
pub fn line_length(line: Line) -> usize
    ensures value { result ≡ length (line_text line) }
    ensures upper_bound { result ≤ 169 }
{
    1 + spaced_length(&numbers_of(line))
}

// The length of numbers, each behind a space.
fn spaced_length(numbers: &[u64]) -> usize
    requires { length numbers.now ≤ 8 }
    ensures value { result ≡ length (spaced numbers.now) }
    ensures upper_bound { result ≤ 21 * length numbers.now }
{
    let mut length = 0;
    for number in numbers {
        length += 1 + digits_of(*number);
    }
    length
}
