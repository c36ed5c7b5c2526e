//! How far the unfolding of a node goes.
ghost use Rattle.std.specs.Prelude.{◌≡◌, ◌+◌, ◌-◌, ◌^◌, ◌≤◌, max, min};
ghost use Rattle.pf_edits.specs.Extents.{joined};

/// Heights are reckoned up to here: more nodes than a chain can have.
const MAX_HEIGHT: u32 = 4_097;

/// Sizes are reckoned up to here: one more than the limit.
const MAX_SIZE: u32 = 131_073;

/// The height of a node, and its size with all children counted as often as they stand there.
#[derive(Clone, Copy, Debug, PartialEq, Eq)]
pub struct Extent {
    pub height: u32,
    pub size: u32,
}

/// The extent of a node without children.
pub(crate) const LEAF: Extent = Extent { height: 1, size: 1 };

fn greater(a: u32, b: u32) -> u32
    ensures { result ≡ max a b }
{
    if a < b { b } else { a }
}

fn lesser(a: u32, b: u32) -> u32
    ensures { result ≡ min a b }
{
    if a < b { a } else { b }
}

fn height_over(height: u32, below: u32) -> u32
    ensures { result ≡ max height (min 4097 (below + 1)) }
{
    let raised = if below < MAX_HEIGHT {
        below + 1
    } else {
        MAX_HEIGHT
    };
    greater(height, raised)
}

fn size_over(size: u32, below: u32) -> u32
    ensures { result ≡ min 131073 (size + below) }
{
    lesser(MAX_SIZE, size.saturating_add(below))
}

impl Extent {
    /// The extent with one more child.
    pub(crate) fn over(self, child: Extent) -> Extent
        ensures { result ≡ joined self child }
    {
        Extent {
            height: height_over(self.height, child.height),
            size: size_over(self.size, child.size),
        }
    }

    /// The extent of a node whose children gained and lost so much in size, and nothing in height.
    pub(crate) fn resized(self, gain: u64, loss: u64) -> Extent
        requires loss { loss ≤ self.size + gain }
        requires gain { gain ≤ 2 ^ 40 }
        ensures { result ≡ record { height = self.height; size = min 131073 (self.size + gain - loss) } }
    {
        let size = u64::from(self.size) + gain - loss;
        Extent {
            height: self.height,
            size: if size < u64::from(MAX_SIZE) {
                size as u32
            } else {
                MAX_SIZE
            },
        }
    }

    /// The greater height and the greater size of two extents.
    pub(crate) fn or(self, other: Extent) -> Extent
        ensures { result ≡ record { height = max self.height other.height; size = max self.size other.size } }
    {
        Extent {
            height: greater(self.height, other.height),
            size: greater(self.size, other.size),
        }
    }
}
