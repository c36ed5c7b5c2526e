//! Instances that were found and wait to be sent.
ghost use Rattle.std.specs.Prelude.{◌≡◌, ◌≤◌, length, map};
ghost use Rattle.stream_stages.specs.Routes.{nodes_above, padded};

use crate::levels::Level;
use draw_list::Tint;

/// The most nodes above an instance.
const DEEPEST: usize = 32;

/// An instance that waits to be sent: the id of its geode, its state, its tint if it is glass, how much nearer it is
/// drawn, its place, and the ids of the nodes above it, the outermost first.
#[derive(Clone, Copy, Debug)]
pub(crate) struct Sighting {
    pub(crate) id: u16,
    pub(crate) state: u16,
    pub(crate) tint: Option<Tint>,
    pub(crate) shift: u32,
    pub(crate) place: u32,
    pub(crate) above: [u16; 32],
    pub(crate) depth: u32,
}

/// Returns the ids of the levels on the way, the outermost first, and zeros behind them.
pub(crate) fn ids_on(way: &[Level]) -> [u16; 32]
    requires { length way.now ≤ 32 }
    ensures { result ≡ padded (map (λ l. l.id) way.now) }
{
    let mut ids = [0; DEEPEST];
    let mut at = 0;
    for level in way {
        ids[at] = level.id;
        at += 1;
    }
    ids
}

impl Sighting {
    /// Returns the ids of the nodes above, the outermost first.
    pub(crate) fn above(&self) -> &[u16]
        ensures { result.now ≡ nodes_above self.now }
    {
        let depth = (self.depth as usize).min(DEEPEST);
        &self.above[..depth]
    }
}
