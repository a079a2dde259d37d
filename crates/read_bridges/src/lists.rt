// The user lists in sum: how many bridges each has, and which nodes and labels a type must have for it.
ghost use Rattle.std.specs.Prelude.{◌≡◌, ◌+◌, ◌<◌, ◌≤◌, max};
ghost use Rattle.read_bridges.specs.ListSums.{ListedBridges, SummedTo, top_of_record, labels_of_record};

use circuit::Bridge;

// Of a user list: the number of its bridges, the highest node that they name, and one more than the highest label, 0 where they name none.
#[derive(Clone, Copy, Default)]
pub struct ListSum {
    pub count: u16,
    pub nodes: u8,
    pub labels: u8,
}

#[tactic(auto, unfolding(crate::specs::ListSums::top_of_record))]
fn top_node(b: Bridge) -> u8
    ensures { result ≡ top_of_record b }
{
    if b.kind == 0 {
        b.first.max(b.second)
    } else {
        b.first
    }
}

#[tactic(auto, unfolding(crate::specs::ListSums::labels_of_record))]
fn labels_named(b: Bridge) -> u8
    requires { b.second ≤ 31 }
    ensures { result ≡ labels_of_record b }
{
    if b.kind == 0 { 0 } else { b.second + 1 }
}

impl ListSum {
    // With one bridge more.
    fn with(self, b: Bridge) -> ListSum
        requires { (self.count < 256) × (b.second ≤ 31) }
        ensures { result ≡ record { count = self.count + 1; nodes = max self.nodes (top_of_record b); labels = max self.labels (labels_of_record b) } }
    {
        ListSum {
            count: self.count + 1,
            nodes: self.nodes.max(top_node(b)),
            labels: self.labels.max(labels_named(b)),
        }
    }
}

// Of each list, by its number.
pub fn lists_of(bridges: &[Bridge]) -> [ListSum; 128]
    requires { ListedBridges bridges.now }
    ensures { SummedTo bridges.now result }
{
    let mut lists = [ListSum::default(); 128];
    for b in bridges {
        let n = b.list as usize;
        lists[n] = lists[n].with(*b);
    }
    lists
}
