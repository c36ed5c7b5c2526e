//! Views of a scene: what the walk, the boxes and the renderers need of a graph or of a copy of it.
ghost use Rattle.std.specs.Prelude.{◌≡◌, ◌≢◌, ◌<◌, ◌≤◌, ◌+◌, ℕ, max, true, List, Option, Some, is_some, is_ok, OnOk, OnErr};
ghost use Rattle.pf_model.specs.declared.geometry.Tri.{Tri};
ghost use Rattle.std.specs.Option.{option_copied, option_map};
ghost use Rattle.fx_math.specs.Plain.{Bounds};
ghost use Rattle.fx_math.specs.Views.{bounds_of};
ghost use Rattle.pf_model.specs.declared.nodes.Node.{Node};

use crate::geometry::Geom;
use crate::nodes::Node;
use fx_math::Box3;
use pf_io::NoMemory;

/// Nodes by their ids.
pub trait NodeView {
    ghost look: { Self → ℕ → Option Node };

    /// The node of an id, where there is one.
    fn node(&self, id: u16) -> Option<&Node>
        ensures { option_copied result ≡ look self.now id };
}

/// Nodes by their ids, with their boxes.
pub trait SceneView: NodeView {
    ghost boxes: { Self → ℕ → Option Bounds };

    /// The box of the node of an id, where it has one.
    fn box_of(&self, id: u16) -> Option<Box3>
        ensures { option_map bounds_of result ≡ boxes self.now id };
}

/// Arrays of vertices by the serial of their geode: the copies that are free and those that are out, the greatest number
/// that there have been, and the content last written.
pub trait Arrays {
    /// The number of free copies under a serial.
    ghost free: { Self → ℕ → ℕ };

    /// The written content under a serial, where the serial is there.
    ghost written: { Self → ℕ → Option (List Tri) };

    /// The number of copies that are out under a serial.
    ghost out: { Self → ℕ → ℕ };

    /// The greatest number of copies that there have been under one serial.
    ghost most: { Self → ℕ };

    /// Makes sure that a copy is free under a serial that is there. Where one is free already, nothing changes; else there
    /// is one copy more than are out.
    fn ready(&mut self, serial: u32) -> Result<(), NoMemory>
        requires { is_some (written self.old serial) ≡ true }
        ensures ready { OnOk result (0 < free self.new serial) }
        ensures was_ready { 0 < free self.old serial → OnOk result (self.new ≡ self.old) × (is_ok result ≡ true) }
        ensures others { (s : ℕ) → s ≢ serial → free self.new s ≡ free self.old s }
        ensures written { (s : ℕ) → written self.new s ≡ written self.old s }
        ensures out { (s : ℕ) → out self.new s ≡ out self.old s }
        ensures most { most self.new ≤ max (most self.old) (out self.old serial + 1) }
        ensures unchanged { OnErr result (self.new ≡ self.old) };

    /// Takes a free copy under the serial of a geode, equal to its triangles.
    fn array(&mut self, serial: u32, geom: &Geom) -> Geom
        requires free { 0 < free self.old serial }
        requires written { written self.old serial ≡ Some geom.now }
        ensures equal { result ≡ geom.now }
        ensures less { free self.new serial + 1 ≡ free self.old serial }
        ensures others { (s : ℕ) → s ≢ serial → free self.new s ≡ free self.old s }
        ensures written { (s : ℕ) → written self.new s ≡ written self.old s }
        ensures out { out self.new serial ≡ out self.old serial + 1 }
        ensures others_out { (s : ℕ) → s ≢ serial → out self.new s ≡ out self.old s }
        ensures most { most self.new ≡ most self.old };
}
