//! What a frame hands to the stages: the views, the sizes and the update list.
ghost use Rattle.std.specs.Prelude.{◌≡◌, length, slice_get, IfOk};
ghost use Rattle.std.specs.Option.{option_copied};

use crate::updates::Updates;
use pf_io::NoMemory;
use pf_model::View;
use std::alloc::Global;
use std::marker::Model;

/// The view of each channel, in order.
#[derive(Debug, Drop)]
pub struct Views {
    views: Vec<View>,
}

impl Model for Views {
    ghost use Rattle.std.specs.Prelude.{List};
    ghost use Rattle.pf_model.specs.Angles.{Viewpoint};

    ghost Value = { List Viewpoint };

    ghost view = { λ v. v.views.items };
}

impl Views {
    /// These views.
    pub fn of(alloc: Global, views: &[View]) -> Result<Views, NoMemory>
        ensures { IfOk result (λ v. v ≡ views.now) }
    {
        Ok(Views {
            views: Vec::from_slice(alloc, views)?,
        })
    }

    /// The number of channels.
    pub fn len(&self) -> usize
        ensures { result ≡ length self.now }
    {
        self.views.len()
    }

    /// The views.
    pub fn as_slice(&self) -> &[View]
        ensures { result.now ≡ self.now }
    {
        self.views.as_slice()
    }

    /// The view of a channel, or none where there is no such channel.
    pub fn at(&self, channel: usize) -> Option<&View>
        ensures { option_copied result ≡ slice_get self.now channel }
    {
        self.views.get(channel)
    }
}

/// The cut of a frame: its number, the views of its channels, the unfolded size of the scene, the number of triangles
/// of all geodes of the graph, each geode once, and what changed since the frame before.
#[derive(Debug, Drop)]
pub struct Cut {
    pub frame: u32,
    pub views: Views,
    pub size: u32,
    pub tris: u32,
    pub updates: Updates,
}
