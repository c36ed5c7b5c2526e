//! A play: what a scene file asks of the application and of the database process.
ghost use Rattle.std.specs.Prelude.{◌≡◌, ◌≤◌, []};
ghost use Rattle.play_format.specs.Plays.{IsPlay};

use fx_math::Lens;
use pf_model::{AppLine, BaseLine};
use std::alloc::Global;
use std::marker::Model;

/// A play. Its sections have together at most 262,144 steps, each edit is in its ranges, and each view's channel is
/// there. In the section of the database process only Await and Buffer stand outside a buffer, only Edit, Ask and Merge
/// inside one, which the Merge closes; each Ask is an Add or a Remove, and no buffer is open at the end.
#[derive(Debug)]
pub struct Play {
    lens: Lens,
    back: [u8; 3],
    channels: u8,
    app: Vec<AppLine>,
    dbase: Vec<BaseLine>,
}

/// Written out, so that to drop one is a single call.
impl Drop for Play {
    fn drop(self) {
        let Self {
            lens: _,
            back: _,
            channels: _,
            app: _,
            dbase: _,
        } = self;
    }
}

impl Model for Play {
    ghost use Rattle.play_format.specs.Plays.{Script, IsPlay};

    ghost Value = { Script };

    ghost view = { λ p. record {
      lens = p.lens;
      back = p.back;
      channels = p.channels;
      app = p.app.items;
      dbase = p.dbase.items;
    } };

    ghost invariant = { λ p. IsPlay (record {
      lens = p.lens;
      back = p.back;
      channels = p.channels;
      app = p.app.items;
      dbase = p.dbase.items;
    }) };
}

impl Play {
    /// The play of these parts.
    pub(crate) fn new(
        lens: Lens,
        back: [u8; 3],
        channels: u8,
        app: Vec<AppLine>,
        dbase: Vec<BaseLine>,
    ) -> Play
        requires { IsPlay (record {
          lens = lens;
          back = back;
          channels = channels;
          app = app.items;
          dbase = dbase.items;
        }) }
        ensures { result ≡ record {
          lens = lens;
          back = back;
          channels = channels;
          app = app.items;
          dbase = dbase.items;
        } }
    {
        Play {
            lens,
            back,
            channels,
            app,
            dbase,
        }
    }

    /// The play of these that has no steps.
    pub fn without_steps(alloc: Global, lens: Lens, back: [u8; 3], channels: u8) -> Play
        requires some_channel { 1 ≤ channels }
        requires most_channels { channels ≤ 4 }
        ensures { result ≡ record { lens = lens; back = back; channels = channels; app = []; dbase = [] } }
    {
        Play::new(lens, back, channels, Vec::new(alloc), Vec::new(alloc))
    }

    /// The size of the pictures, the focal length and the depths.
    pub fn lens(&self) -> Lens
        ensures value { result ≡ self.now.lens }
        ensures play { IsPlay self.now }
    {
        self.lens
    }

    /// The red, green and blue of the background.
    pub fn back(&self) -> [u8; 3]
        ensures value { result ≡ self.now.back }
        ensures play { IsPlay self.now }
    {
        self.back
    }

    /// The number of channels, 1 to 4.
    pub fn channels(&self) -> u8
        ensures value { result ≡ self.now.channels }
        ensures play { IsPlay self.now }
    {
        self.channels
    }

    /// The steps of the application, with the numbers of their lines.
    pub fn app(&self) -> &[AppLine]
        ensures value { result.now ≡ self.now.app }
        ensures play { IsPlay self.now }
    {
        self.app.as_slice()
    }

    /// The steps of the database process, with the numbers of their lines.
    pub fn dbase(&self) -> &[BaseLine]
        ensures value { result.now ≡ self.now.dbase }
        ensures play { IsPlay self.now }
    {
        self.dbase.as_slice()
    }

    /// Both lists of steps.
    pub fn into_lists(self) -> (Vec<AppLine>, Vec<BaseLine>)
        ensures app { result.0.items ≡ self.app }
        ensures dbase { result.1.items ≡ self.dbase }
        ensures play { IsPlay self }
    {
        let Play {
            lens: _,
            back: _,
            channels: _,
            app,
            dbase,
        } = self;
        (app, dbase)
    }
}
