//! The header of a live text, line by line.
ghost use Rattle.std.specs.Prelude.{◌≡◌, ℕ, [], ◌∷◌, ◌++◌, true};
ghost use Rattle.play_format.specs.declared.commands.Command.TheVariants as command;
ghost use Rattle.play_format.specs.Commands.{limits_of};
ghost use Rattle.play_format.specs.Places.{AreWithin, is_ordered};
ghost use Rattle.play_format.specs.Sections.{IsSize};
ghost use Rattle.live_text.specs.States.{head_entries, HeadLine, HeadAfter, IsSizeRead, IsLensRead, IsBackRead};

use crate::given::Given;
use fx_math::Lens;
use play_format::{Command, Spot, number, u8_at, u16_at};

/// What was read of the header.
#[derive(Clone, Copy, Debug)]
pub enum Head {
    /// Nothing.
    Nothing,
    /// The width and the height.
    Size(u16, u16),
    /// The lens.
    Lens(Lens),
    /// The lens and the background.
    Back(Lens, [u8; 3]),
    /// The lens and the background; the line of the number of channels stood too.
    Channels(Lens, [u8; 3]),
    /// All of it, and it was given.
    Given,
}

/// The size that a line says.
fn size(numbers: &[i32]) -> (u16, u16)
    requires { AreWithin (limits_of 1 command.Size) numbers.now }
    ensures { IsSizeRead numbers.now result.0 result.1 }
{
    (u16_at(numbers, 0), u16_at(numbers, 1))
}

/// The lens of a line, for pictures of this size.
fn lens(numbers: &[i32], w: u16, h: u16) -> Lens
    requires size { IsSize w h }
    requires within { AreWithin (limits_of 1 command.Lens) numbers.now }
    requires ordered { is_ordered command.Lens numbers.now ≡ true }
    ensures { IsLensRead numbers.now w h result }
{
    let (near, far) = (number(numbers, 1), number(numbers, 2));
    match Lens::new(w, h, u16_at(numbers, 0), near, far) {
        Some(lens) => lens,
        None => unreachable!(),
    }
}

/// The background of a line.
fn back(numbers: &[i32]) -> [u8; 3]
    requires { AreWithin (limits_of 1 command.Back) numbers.now }
    ensures { IsBackRead numbers.now result }
{
    [u8_at(numbers, 0), u8_at(numbers, 1), u8_at(numbers, 2)]
}

impl Head {
    /// What was read of the header behind a line, and the header where it is whole.
    pub fn after(self, spot: Spot, command: Command, numbers: &[i32]) -> (Head, Option<Given>)
        requires { HeadLine spot self command numbers.now }
        ensures { HeadAfter spot self command numbers.now result.0 result.1 }
    {
        match self {
            Head::Nothing => {
                let (w, h) = size(numbers);
                (Head::Size(w, h), None)
            }
            Head::Size(w, h) => (Head::Lens(lens(numbers, w, h)), None),
            Head::Lens(lens) => (Head::Back(lens, back(numbers)), None),
            Head::Back(lens, back) => match command {
                Command::Channels => (Head::Channels(lens, back), None),
                _ => (Head::Given, Some(header(lens, back, spot.channels))),
            },
            Head::Channels(lens, back) => (Head::Given, Some(header(lens, back, spot.channels))),
            Head::Given => unreachable!(),
        }
    }
}

fn header(lens: Lens, back: [u8; 3], channels: u8) -> Given
    ensures { result ≡ Given.Header lens back channels }
{
    Given::Header {
        lens,
        back,
        channels,
    }
}
