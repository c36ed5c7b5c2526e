//! The nodes of a scene graph.
ghost use Rattle.std.specs.Prelude.{◌≡◌, IfOk};

use crate::geometry::Geom;
use crate::lists::{Ids, Ranges, Times};
use crate::poses::Pose;
use fx_math::{Affine, Vec3};
use pf_io::NoMemory;

/// Which children a switch (pfSwitch) shows.
#[derive(Clone, Copy, Debug, PartialEq, Eq)]
pub enum Pick {
    /// All children.
    On,
    /// No child.
    Off,
    /// The child at this place, or none where it is not there.
    One(u16),
}

/// How a sequence (pfSequence) runs.
#[derive(Clone, Copy, Debug, PartialEq, Eq)]
pub enum Run {
    /// Running since this frame.
    Since(u32),
    /// Held at this place.
    Held(u16),
}

/// The kind of a node, with what it holds. In comments and definitions "geode" with a small letter means a node of
/// kind `Geode` or `Glass`.
#[derive(Debug, Drop)]
pub enum Kind {
    /// A group (pfGroup): all children are shown. The scene is one.
    Group,
    /// A switch (pfSwitch).
    Switch(Pick),
    /// A static coordinate system (pfSCS).
    Scs(Affine),
    /// A dynamic coordinate system (pfDCS).
    Dcs(Pose),
    /// A level of detail (pfLOD): its centre, and the ranges between which each child is shown, in 1/4096 unit.
    Lod { centre: Vec3, ranges: Ranges },
    /// A sequence (pfSequence): the times of its children in frames, and how it runs.
    Seq { times: Times, run: Run },
    /// A layer (pfLayer): each child lies as a decal on those before it.
    Layer,
    /// Opaque triangles (pfGeode) drawn in a state.
    Geode { state: u16, geom: Geom },
    /// Glass: triangles drawn in a state and blended over what lies behind; alpha 255 hides it.
    Glass { state: u16, alpha: u8, geom: Geom },
}

/// A node: its serial, the frame in preparation when it was made, its kind, and the ids of its children.
#[derive(Debug, Drop)]
pub struct Node {
    pub serial: u32,
    pub born: u32,
    pub kind: Kind,
    pub children: Ids,
}

/// What is left of a deleted node.
#[derive(Debug, Drop)]
pub struct Gone {
    pub id: u16,
    pub serial: u32,
    pub born: u32,
    pub kind: Kind,
}

/// The children of a node that are shown.
#[derive(Clone, Copy, Debug, PartialEq, Eq)]
pub enum Chosen {
    /// All children.
    All,
    /// No child.
    Nothing,
    /// The child at this place, which is there.
    One(u16),
}

impl Kind {
    ghost use Rattle.std.specs.Prelude.{◌≡◌};
    ghost use Rattle.pf_model.specs.Kinds.{is_geode};

    /// Whether the kind is a geode.
    pub fn is_geode(&self) -> bool
        ensures { result ≡ is_geode self.now }
    {
        matches!(self, Kind::Geode { .. } | Kind::Glass { .. })
    }
}

impl Kind {
    /// An equal kind.
    pub fn copy(&self) -> Result<Kind, NoMemory>
        ensures { IfOk result (λ k. k ≡ self.now) }
    {
        match self {
            Kind::Group => Ok(Kind::Group),
            Kind::Switch(pick) => Ok(Kind::Switch(*pick)),
            Kind::Scs(matrix) => Ok(Kind::Scs(*matrix)),
            Kind::Dcs(pose) => Ok(Kind::Dcs(*pose)),
            Kind::Lod { centre, ranges } => {
                let ranges = ranges.copy()?;
                Ok(Kind::Lod {
                    centre: *centre,
                    ranges,
                })
            }
            Kind::Seq { times, run } => {
                let times = times.copy()?;
                Ok(Kind::Seq { times, run: *run })
            }
            Kind::Layer => Ok(Kind::Layer),
            Kind::Geode { state, geom } => {
                let geom = geom.copy()?;
                Ok(Kind::Geode {
                    state: *state,
                    geom,
                })
            }
            Kind::Glass { state, alpha, geom } => {
                let geom = geom.copy()?;
                Ok(Kind::Glass {
                    state: *state,
                    alpha: *alpha,
                    geom,
                })
            }
        }
    }
}

impl Node {
    /// An equal node.
    pub fn copy(&self) -> Result<Node, NoMemory>
        ensures { IfOk result (λ n. n ≡ self.now) }
    {
        let kind = self.kind.copy()?;
        let children = self.children.copy()?;
        Ok(Node {
            serial: self.serial,
            born: self.born,
            kind,
            children,
        })
    }
}

impl Node {
    ghost use Rattle.std.specs.Prelude.{◌≡◌, ◌∷◌, [], Some};
    ghost use Rattle.pf_model.specs.Edits.{remains};

    /// What is left of a node that is deleted under this id.
    pub fn remains(self, id: u16) -> Gone
        ensures { remains id (Some self) ≡ result ∷ [] }
    {
        let Node {
            serial,
            born,
            kind,
            children: _,
        } = self;
        Gone {
            id,
            serial,
            born,
            kind,
        }
    }
}

impl Gone {
    /// Equal remains.
    pub fn copy(&self) -> Result<Gone, NoMemory>
        ensures { IfOk result (λ g. g ≡ self.now) }
    {
        let kind = self.kind.copy()?;
        Ok(Gone {
            id: self.id,
            serial: self.serial,
            born: self.born,
            kind,
        })
    }
}
