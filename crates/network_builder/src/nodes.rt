ghost use Rattle.std.specs.Prelude.{◌≡◌, ◌<◌, ◌^◌};
ghost use Rattle.network_builder.specs.Network.{node_at, number_of, node_along, next_in_row, next_node, strands_before};

/// An axis of the box. The strands of a node follow each other in this order.
#[derive(Clone, Copy)]
pub(crate) enum Axis {
    X,
    Y,
    Z,
}

impl Axis {
    /// How many strands of a node come before that along this axis.
    pub(crate) fn strands_before(self) -> u32
        ensures { result ≡ strands_before self }
    {
        match self {
            Axis::X => 0,
            Axis::Y => 1,
            Axis::Z => 2,
        }
    }
}

/// The place of a node in the lattice of nodes, counted along each axis.
#[derive(Clone, Copy)]
pub(crate) struct Node {
    pub(crate) x: u32,
    pub(crate) y: u32,
    pub(crate) z: u32,
}

impl Node {
    /// The node with this number, where a row has so many nodes.
    pub(crate) fn at(nodes: u32, number: u32) -> Node
        requires { 0 < nodes }
        ensures { result ≡ node_at nodes number }
    {
        let row = number / nodes;
        Node {
            x: number % nodes,
            y: row % nodes,
            z: row / nodes,
        }
    }

    /// How many nodes come before this one.
    pub(crate) fn number(self, nodes: u32) -> u32
        requires { number_of nodes self < 2 ^ 32 }
        ensures { result ≡ number_of nodes self }
    {
        self.x + nodes * (self.y + nodes * self.z)
    }

    pub(crate) fn along(self, axis: Axis) -> u32
        ensures { result ≡ node_along axis self }
    {
        match axis {
            Axis::X => self.x,
            Axis::Y => self.y,
            Axis::Z => self.z,
        }
    }

    /// The next node along an axis, and after the last one of a row the first.
    pub(crate) fn next(self, nodes: u32, axis: Axis) -> Node
        requires { node_along axis self < nodes }
        ensures { result ≡ next_node nodes axis self }
    {
        match axis {
            Axis::X => Node {
                x: next_in_row(nodes, self.x),
                ..self
            },
            Axis::Y => Node {
                y: next_in_row(nodes, self.y),
                ..self
            },
            Axis::Z => Node {
                z: next_in_row(nodes, self.z),
                ..self
            },
        }
    }
}

fn next_in_row(places: u32, place: u32) -> u32
    requires { place < places }
    ensures { result ≡ next_in_row places place }
{
    if place + 1 == places { 0 } else { place + 1 }
}
