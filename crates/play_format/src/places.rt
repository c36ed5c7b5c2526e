//! Which line may stand at which place of a play.
ghost use Rattle.std.specs.Prelude.{◌≡◌, ◌+◌, ◌≤◌, ◌<◌, ◌-◌, if◌then◌else◌, IsTrue, unsigned_abs};
ghost use Rattle.play_format.specs.Places.{number, is_known, may_stand, may_end, announced_by, announced, is_ordered, has_room, next_spot, start, place_after, channels_after, is_triangle, stands_at_start, stands_in_app, stands_in_buffer};
ghost use Rattle.play_format.specs.Rests.{IsSound};

use crate::commands::{Command, Form};

/// A version of the format.
#[derive(Clone, Copy, Debug, PartialEq, Eq)]
pub enum Version {
    One,
    /// With `glass`, `channels` and `cview`.
    Two,
}

/// A place of a play, between two lines.
#[derive(Clone, Copy, Debug, PartialEq, Eq)]
pub enum Place {
    /// Before the line `size`.
    Size,
    /// Before the line `lens`.
    Lens,
    /// Before the line `back`.
    Back,
    /// Before the fifth line.
    Start,
    /// Behind the line `channels`.
    Opening,
    /// In the section of the application.
    App,
    /// In the section of the database process, outside a buffer.
    Dbase,
    /// Inside a buffer.
    Buffer,
}

/// What the lines so far tell about the next line.
#[derive(Clone, Copy, Debug, PartialEq, Eq)]
pub struct Spot {
    pub version: Version,
    pub place: Place,
    /// The number of channels.
    pub channels: u8,
    /// How many triangle lines have to come next.
    pub due: u32,
    /// How many triangle lines were announced so far.
    pub triangles: u32,
}

/// The most triangles of a play.
const MAX_TRIANGLES: u32 = 65_536;

/// Number `k` of a line, or 0 where it has fewer.
pub fn number(numbers: &[i32], k: usize) -> i32
    ensures { result ≡ number numbers.now k }
{
    numbers.get(k).copied().unwrap_or(0)
}

/// How many triangle lines an edit announces.
fn announced_by(form: Form, numbers: &[i32]) -> u32
    ensures { result ≡ announced_by form numbers.now }
{
    match form {
        Form::Geode => number(numbers, 2).unsigned_abs(),
        Form::Glass => number(numbers, 3).unsigned_abs(),
        Form::Verts => number(numbers, 1).unsigned_abs(),
        _ => 0,
    }
}

/// How many triangle lines a line announces.
fn announced(command: Command, numbers: &[i32]) -> u32
    ensures { result ≡ announced command numbers.now }
{
    match command {
        Command::Edit(form) => announced_by(form, numbers),
        _ => 0,
    }
}

/// Whether the far depth of a lens is not below the near one.
pub fn is_ordered(command: Command, numbers: &[i32]) -> bool
    ensures { result ≡ is_ordered command numbers.now }
{
    match command {
        Command::Lens => number(numbers, 1) <= number(numbers, 2),
        _ => true,
    }
}

impl Version {
    /// Whether an edit belongs to this version.
    fn knows(self, form: Form) -> bool
        ensures { result ≡ is_known self form }
    {
        match form {
            Form::Glass => matches!(self, Version::Two),
            _ => true,
        }
    }

    /// Whether a line may be the fifth.
    fn starts(self, command: Command) -> bool
        ensures { result ≡ stands_at_start self command }
    {
        match command {
            Command::App => true,
            Command::Channels => matches!(self, Version::Two),
            _ => false,
        }
    }

    /// Whether a line may stand in the section of the application.
    fn allows_in_app(self, command: Command) -> bool
        ensures { result ≡ stands_in_app self command }
    {
        match command {
            Command::View | Command::Sync | Command::Frame | Command::Wait | Command::Dbase => true,
            Command::ChannelView => matches!(self, Version::Two),
            Command::Edit(form) => self.knows(form),
            _ => false,
        }
    }

    /// Whether a line may stand inside a buffer.
    fn allows_in_buffer(self, command: Command) -> bool
        ensures { result ≡ stands_in_buffer self command }
    {
        match command {
            Command::BufferAdd | Command::BufferRemove | Command::Merge => true,
            Command::Edit(form) => self.knows(form),
            _ => false,
        }
    }
}

impl Spot {
    /// The spot behind the first line.
    pub fn start(version: Version) -> Spot
        ensures { result ≡ start version }
    {
        Spot {
            version,
            place: Place::Size,
            channels: 1,
            due: 0,
            triangles: 0,
        }
    }

    /// Whether a line may stand here.
    pub fn allows(self, command: Command) -> bool
        ensures { result ≡ may_stand self command }
    {
        if self.due > 0 {
            return matches!(command, Command::Triangle);
        }
        match self.place {
            Place::Size => matches!(command, Command::Size),
            Place::Lens => matches!(command, Command::Lens),
            Place::Back => matches!(command, Command::Back),
            Place::Start => self.version.starts(command),
            Place::Opening => matches!(command, Command::App),
            Place::App => self.version.allows_in_app(command),
            Place::Dbase => matches!(command, Command::Await | Command::Buffer),
            Place::Buffer => self.version.allows_in_buffer(command),
        }
    }

    /// Whether the play may end here.
    pub fn may_end(self) -> bool
        ensures { result ≡ may_end self }
    {
        self.due == 0 && matches!(self.place, Place::App | Place::Dbase)
    }

    /// Whether the triangles that a line announces are within the limit of a play.
    pub fn has_room(self, command: Command, numbers: &[i32]) -> bool
        requires { IsSound self }
        ensures { result ≡ has_room self command numbers.now }
    {
        announced(command, numbers) <= MAX_TRIANGLES - self.triangles
    }

    /// The spot behind a line.
    #[tactic(auto, unfolding(crate::specs::Places::next_spot))]
    pub fn next(self, command: Command, numbers: &[i32]) -> Spot
        requires sound { IsSound self }
        requires room { IsTrue (has_room self command numbers.now) }
        requires channels { channels_after command numbers.now self.channels ≤ 4 }
        requires some_channel { 1 ≤ channels_after command numbers.now self.channels }
        ensures value { result ≡ next_spot self command numbers.now }
        ensures sound { IsSound result }
    {
        let announced = announced(command, numbers);
        Spot {
            version: self.version,
            place: self.place.after(command),
            channels: self.channels_after(command, numbers),
            due: self.due_after(command, announced),
            triangles: self.triangles + announced,
        }
    }

    fn channels_after(self, command: Command, numbers: &[i32]) -> u8
        requires { channels_after command numbers.now self.channels ≤ 4 }
        ensures value { result ≡ channels_after command numbers.now self.channels }
        ensures bound { result ≤ 4 }
    {
        match command {
            Command::Channels => number(numbers, 0).unsigned_abs() as u8,
            _ => self.channels,
        }
    }

    fn due_after(self, command: Command, announced: u32) -> u32
        ensures { result ≡ (if is_triangle command then self.due - 1 else announced) }
    {
        match command {
            Command::Triangle => self.due.saturating_sub(1),
            _ => announced,
        }
    }
}

impl Place {
    /// The place behind a line.
    fn after(self, command: Command) -> Place
        ensures { result ≡ place_after command self }
    {
        match command {
            Command::Size => Place::Lens,
            Command::Lens => Place::Back,
            Command::Back => Place::Start,
            Command::Channels => Place::Opening,
            Command::App => Place::App,
            Command::Dbase | Command::Merge => Place::Dbase,
            Command::Buffer => Place::Buffer,
            _ => self,
        }
    }
}
