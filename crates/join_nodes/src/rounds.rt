// Joining by synchronous rounds: a round hands on along each edge what its ends had before the round. Nodes and the planes of gates have `W` words each, 64 vectors to a word.
ghost use Rattle.std.specs.Prelude.{◌≡◌, ◌+◌, ◌*◌, ◌<◌, ◌≤◌, ◌↔◌, false, ◌++◌, length, take, drop, replicate};
ghost use Rattle.switch.specs.Modules.{most_nodes};
ghost use Rattle.join_nodes.specs.Model.{most_gates, PartsFit, handed_to, wide_round, rail_alone, WideJoined};

use crate::edges::Parts;

// The edges of a module, none of which has a node above `highest`, and the planes of their gates.
#[derive(Clone, Copy)]
pub struct Network<'a, const W: usize> {
    pub highest: u8,
    pub edges: &'a [Parts],
    pub planes: &'a [u64],
    pub ghost fit: { PartsFit edges.now (highest + 1) },
    pub ghost narrow: { W ≤ 4 },
    pub ghost long: { length planes.now ≡ W * most_gates },
}

impl<const W: usize> Network<'_, W> {
    // One round: `next` holds the words of the round before, and gains what each on edge hands on.
    fn round(&self, joined: &[u64], next: &mut [u64])
        requires joined_long { length joined.now ≡ W * most_nodes }
        requires next_value { next.old ≡ joined.now }
        ensures { next.new ≡ wide_round self.now.edges.now self.now.planes.now W joined.now }
    {
        for edge in self.edges {
            let a = W * (edge.first as usize);
            let b = W * (edge.second as usize);
            let g = W * (edge.gate as usize);
            let plane = &self.planes[g..g + W];
            hand_on::<W>(plane, &joined[b..b + W], &mut next[a..a + W]);
            hand_on::<W>(plane, &joined[a..a + W], &mut next[b..b + W]);
        }
    }

    // The nodes joined to a rail: rounds go on until one adds nothing. The answer is how many rounds added a node. Both lists hold the words before the first round; `next` is used on the way.
    fn joined_to(&self, rail: usize, joined: &mut [u64], next: &mut [u64]) -> usize
        requires rail_lt_most_nodes { rail < most_nodes }
        requires joined_value { (joined.old ≡ rail_alone W rail) × (next.old ≡ rail_alone W rail) }
        ensures told { WideJoined self.now.edges.now self.now.planes.now W rail joined.new result }
        ensures next_value { next.new ≡ joined.new }
    {
        let nodes = self.highest as usize + 1;
        let mut rounds = 0;
        // labelled, so that its name in the proofs is the same whatever is done behind it
        'turns: loop {
            self.round(joined, next);
            if !settle(joined, next, W * nodes) {
                return rounds;
            }
            rounds += 1;
        }
    }

    // The same, in words that were 0. Where callers hand the second list in, the compiler does not see that the two are apart, and grading is a third slower.
    pub(crate) fn join_rail<const N: usize>(&self, rail: usize, joined: &mut [u64; N]) -> usize
        requires rail_lt_most_nodes { rail < most_nodes }
        requires joined_value { joined.old ≡ replicate (W * most_nodes) 0 }
        ensures { WideJoined self.now.edges.now self.now.planes.now W rail joined.new result }
    {
        begin::<W>(joined, rail);
        let mut next = *joined;
        self.joined_to(rail, joined, &mut next)
    }
}

// Hands the words of a node on to another, along an edge whose gate has this plane.
fn hand_on<const W: usize>(plane: &[u64], from: &[u64], to: &mut [u64])
    requires { (length plane.now ≡ W) × (length from.now ≡ W) × (length to.old ≡ W) }
    ensures { to.new ≡ handed_to plane.now 0 from.now 0 to.old 0 W }
{
    for w in 0..W {
        to[w] |= from[w] & plane[w];
    }
}

// Takes the words of a round over, in the first `places`, and says whether they are not all as they were.
// By `==` and `copy_from_slice` reading is 3 percent slower, and grading many rows 14 percent.
fn settle(joined: &mut [u64], next: &[u64], places: usize) -> bool
    requires { (places ≤ length joined.old) × (places ≤ length next.now) }
    ensures taken { joined.new ≡ take places next.now ++ drop places joined.old }
    ensures tells { (result ≡ false) ↔ (take places next.now ≡ take places joined.old) }
{
    let mut added = 0;
    for p in 0..places {
        added |= next[p] ^ joined[p];
        joined[p] = next[p];
    }
    added != 0
}

// In words that were 0, the rail is joined to itself under every vector.
fn begin<const W: usize>(words: &mut [u64], rail: usize)
    requires { (rail < most_nodes) × (words.old ≡ replicate (W * most_nodes) 0) }
    ensures { words.new ≡ rail_alone W rail }
{
    words[W * rail..W * rail + W].fill(u64::MAX);
}
