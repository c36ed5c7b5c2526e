//! Triangles, and the geometry of a geode.
ghost use Rattle.std.specs.Prelude.{◌≡◌, ◌≤◌, length, slice_get, IfOk, is_ok, true};
ghost use Rattle.std.specs.Vec.{vec_len};
ghost use Rattle.pf_model.specs.Three.{AreThree};

use fx_math::Vec3;
use pf_io::NoMemory;
use std::marker::Model;

/// A triangle: its vertices, and the red, green and blue of each vertex.
#[derive(Clone, Copy, Debug, PartialEq, Eq)]
pub struct Tri {
    pub v: [Vec3; 3],
    pub c: [[u8; 3]; 3],
    ghost three: { AreThree v c },
}

/// The triangles of a geode, at most 4,096: an owned list.
#[derive(Debug, Drop)]
pub struct Geom {
    tris: Vec<Tri>,
}

impl Model for Geom {
    ghost use Rattle.std.specs.Prelude.{◌≤◌, List, length};
    ghost use Rattle.pf_model.specs.declared.geometry.Tri.{Tri};

    ghost Value = { List Tri };

    ghost view = { λ g. g.tris.items };

    ghost invariant = { λ g. length g.tris.items ≤ 4096 };
}

impl Geom {
    /// The geometry of these triangles. It takes no memory and is never refused.
    pub fn new(tris: Vec<Tri>) -> Result<Geom, NoMemory>
        requires { vec_len tris ≤ 4096 }
        ensures tris { IfOk result (λ g. g ≡ tris.items) }
        ensures ok { is_ok result ≡ true }
    {
        Ok(Geom { tris })
    }

    /// The triangles as a vector of their own. It takes no memory.
    pub fn into_vec(self) -> Vec<Tri>
        ensures { result.items ≡ self }
    {
        self.tris
    }

    /// Writes as many other triangles in place of these. It takes no memory.
    pub fn write(&mut self, tris: &[Tri])
        requires { length tris.now ≡ length self.old }
        ensures { self.new ≡ tris.now }
    {
        self.tris.copy_from_slice(tris);
    }

    /// The number of triangles.
    pub fn len(&self) -> usize
        ensures value { result ≡ length self.now }
        ensures bound { result ≤ 4096 }
    {
        self.tris.len()
    }

    /// The triangles.
    pub fn as_slice(&self) -> &[Tri]
        ensures value { result.now ≡ self.now }
        ensures bound { length self.now ≤ 4096 }
    {
        self.tris.as_slice()
    }

    /// The triangle of a number, or none past the end.
    pub fn at(&self, i: usize) -> Option<Tri>
        ensures { result ≡ slice_get self.now i }
    {
        self.tris.get(i).copied()
    }

    /// An equal list of triangles.
    pub fn copy(&self) -> Result<Geom, NoMemory>
        ensures { IfOk result (λ g. g ≡ self.now) }
    {
        let mut tris = Vec::new(*self.tris.allocator());
        tris.extend_from_slice(self.tris.as_slice())?;
        Ok(Geom { tris })
    }
}
