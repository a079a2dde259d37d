// An edge's record, made and taken apart. From its lowest bit: five bits for the first node, five for the second, five for the gate, which is the label and 16 more in a p-channel edge, and one that tells an edge of tag 7.
// One number, since the fixed memory of a call holds 16 types of 256 edges: four bytes an edge would take 25 KB more of stack.
ghost use Rattle.std.specs.Prelude.{cond, ◌≡◌, ◌<◌};
ghost use Rattle.switch.specs.Conduction.{channel_p, channel_n, by_position, stated};
ghost use Rattle.switch.specs.Records.{edge_record, first_node_in, second_node_in, label_in, gate_in, channel_in, tag_in};

use crate::Edge;

impl Edge {
    // The edge with these ends and this label. Its field stated its channel (tag 7), or its ends told it (tag 3).
    pub fn new(first: u8, second: u8, label: u8, p_channel: bool, is_stated: bool) -> Edge
        requires { (first < 32) × (second < 32) × (label < 16) }
        ensures { result ≡ edge_record (record { first = first; second = second; channel = cond p_channel channel_p channel_n; label = label; tag = cond is_stated stated by_position }) }
    {
        let nodes = u16::from(first) + 32 * u16::from(second);
        let gate = u16::from(label) + 16 * u16::from(p_channel);
        Edge {
            code: nodes + 1024 * gate + 32768 * u16::from(is_stated),
        }
    }

    pub fn first(self) -> u8
        ensures { result ≡ first_node_in self }
    {
        (self.code % 32) as u8
    }

    pub fn second(self) -> u8
        ensures { result ≡ second_node_in self }
    {
        (self.code / 32 % 32) as u8
    }

    pub fn label(self) -> u8
        ensures { result ≡ label_in self }
    {
        (self.code / 1024 % 16) as u8
    }

    // What switches the edge: its label, and 16 more in a p-channel edge.
    pub fn gate(self) -> u8
        ensures { result ≡ gate_in self }
    {
        (self.code / 1024 % 32) as u8
    }

    // Whether it is p-channel.
    #[tactic(auto, unfolding(crate::specs::Conduction::channel_by))]
    pub fn is_p(self) -> bool
        ensures { cond result channel_p channel_n ≡ channel_in self }
    {
        16 <= self.gate()
    }

    // Whether its field stated its channel.
    #[tactic(auto, unfolding(crate::specs::Records::tag_by))]
    pub fn is_stated(self) -> bool
        ensures { cond result stated by_position ≡ tag_in self }
    {
        32768 <= self.code
    }
}
