// The kinds of field.
ghost use Rattle.std.specs.Prelude.{cond, ◌≡◌};
ghost use Rattle.switch.specs.Conduction.{by_position, stated};
ghost use Rattle.circuit.specs.Order.{tag_of, edge_tag_of};
ghost use Rattle.circuit.specs.Kinds.{kind_of};

#[derive(Clone, Copy, Debug, PartialEq, Eq)]
pub enum Kind {
    Inputs,
    Module,
    Edge,
    Bridge,
    Instance,
    Vector,
    Unknown,
}

// The kind of a field with this tag. An edge has one of two tags.
impl From<u8> for Kind {
    ghost from_gives = { λ tag kind. kind ≡ kind_of (tag_of tag) };

    #[tactic(auto, unfolding(crate::specs::Order::tag_of))]
    fn from(tag: u8) -> Kind {
        match tag {
            1 => Kind::Inputs,
            2 => Kind::Module,
            3 | 7 => Kind::Edge,
            4 => Kind::Bridge,
            5 => Kind::Instance,
            6 => Kind::Vector,
            _ => Kind::Unknown,
        }
    }
}

// Whether an edge field with this tag states its channel.
#[tactic(auto, unfolding(crate::specs::Order::tag_of, crate::specs::Order::edge_tag_of))]
pub fn states_channel(tag: u8) -> bool
    ensures { cond result stated by_position ≡ edge_tag_of (tag_of tag) }
{
    tag == 7
}
