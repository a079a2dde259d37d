// The complementary check as an entry of its own, so that bench/stack can measure the stack that it takes by itself: in the library it shares one frame with reading.
#![tactic(auto)]

ghost use Rattle.std.specs.Prelude.{◌≡◌};
ghost use Rattle.words.specs.Bits.{of_bool};
ghost use Rattle.switch.specs.Records.{type_of};
ghost use Rattle.switch.specs.Deciding.{is_complementary};
ghost use Rattle.bench_check.specs.Judged.{judged};

use join_nodes::complementary::check_type;
use switch::{Edge, MOST_EDGES, ModuleType};

// The type that six numbers tell, whatever they are: its three numbers, then a node, a label and how many edges there are between them. The compiler does not know them,
// so that it cannot make the check smaller than it is for types of a file.
fn judged_type(h: u8, o: u8, k: u8, node: u8, label: u8, count: u8) -> ModuleType
    ensures { result ≡ judged h o k node label count }
{
    let labels = 1 + k % 12;
    let edge = Edge::new(node % 24, 0, label % labels, label < node, false);
    ModuleType {
        highest: 24 + h % 8,
        output: 2 + o % 16,
        labels,
        count: (count as usize) + 1,
        edges: [edge; MOST_EDGES],
    }
}

// 1 where that type is complementary, and 0 where it is not.
pub fn bench_check(h: u8, o: u8, k: u8, node: u8, label: u8, count: u8) -> u64
    ensures { result ≡ of_bool (is_complementary (type_of (judged h o k node label count))) }
{
    u64::from(check_type(judged_type(h, o, k, node, label, count)))
}
