//! The commands of a play: the word, the limits of the numbers and the closing word of each line.
ghost use Rattle.std.specs.Prelude.{◌≡◌, ◌≤◌, length};
ghost use Rattle.play_format.specs.Commands.{text_of, form_text, tail_of, limits_of, form_limits, channel_view_limits};

use crate::numbers::Limits;

/// A line that edits the scene graph. It may stand in both sections.
#[derive(Clone, Copy, Debug, PartialEq, Eq)]
pub enum Form {
    /// Makes a group.
    Group,
    /// Makes a switch that is off.
    Switch,
    /// Makes a dynamic coordinate system.
    Dcs,
    /// Makes a level of detail without ranges.
    Lod,
    /// Makes a sequence that is held at place 0.
    Seq,
    /// Makes a layer.
    Layer,
    /// Makes a static coordinate system.
    Scs,
    /// Makes a geode; its triangle lines follow.
    Geode,
    /// Makes a geode of glass; its triangle lines follow. Version 2.
    Glass,
    /// Replaces the triangles of a geode; the triangle lines follow.
    Verts,
    /// Appends a child.
    Add,
    /// Takes out a child.
    Remove,
    /// Puts a child before a place.
    Insert,
    /// Replaces a child.
    Replace,
    /// Deletes a node.
    Delete,
    /// Runs a sequence.
    Run,
    /// Stops a sequence.
    Stop,
    /// Sets a switch to the child at a place.
    SwitchTo,
    /// Sets a switch on.
    SwitchOn,
    /// Sets a switch off.
    SwitchOff,
    /// Sets a matrix as a pose.
    Mat,
    /// Sets the translation of a pose.
    Trans,
    /// Sets the centre of a level of detail.
    Centre,
    /// Sets heading, pitch and roll of a pose.
    Rot,
    /// Sets the scale of a pose.
    Scale,
    /// Sets a range of a level of detail.
    Range,
    /// Sets a time of a sequence.
    Times,
}

/// A line of a play behind the first.
#[derive(Clone, Copy, Debug, PartialEq, Eq)]
pub enum Command {
    /// A triangle of the geode above it.
    Triangle,
    /// The size of the pictures.
    Size,
    /// The focal length and the depths.
    Lens,
    /// The background.
    Back,
    /// The number of channels. Version 2.
    Channels,
    /// Begins the section of the application.
    App,
    /// Begins the section of the database process.
    Dbase,
    /// Sets the view of channel 0.
    View,
    /// Sets the view of another channel. Version 2.
    ChannelView,
    /// Frees what is due.
    Sync,
    /// Begins a frame.
    Frame,
    /// Waits for a number of merges.
    Wait,
    /// Waits for a number of frames.
    Await,
    /// Opens a buffer.
    Buffer,
    /// Merges the buffer and closes it.
    Merge,
    /// Records a link.
    BufferAdd,
    /// Records the end of a link.
    BufferRemove,
    /// Edits the scene graph.
    Edit(Form),
}

/// The limits of a width or a height.
const SIZE: Limits = Limits {
    low: 1,
    high: 1_024,
};
/// The limits of a focal length.
const FOCAL_LENGTH: Limits = Limits {
    low: 1,
    high: 65_535,
};
/// The limits of a depth.
const DEPTH: Limits = Limits {
    low: 1,
    high: 1_073_741_823,
};
/// The limits of a colour or an alpha.
const COLOUR: Limits = Limits { low: 0, high: 255 };
/// The limits of a number of channels.
const CHANNELS: Limits = Limits { low: 1, high: 4 };
/// The limits of the id of a new node.
const NEW_ID: Limits = Limits {
    low: 1,
    high: 65_535,
};
/// The limits of an id.
const ID: Limits = Limits {
    low: 0,
    high: 65_535,
};
/// The limits of a state.
const STATE: Limits = Limits {
    low: 0,
    high: 65_535,
};
/// The limits of a number of triangles.
const TRIANGLES: Limits = Limits {
    low: 0,
    high: 4_096,
};
/// The limits of a place.
const PLACE: Limits = Limits { low: 0, high: 255 };
/// The limits of a place of a range.
const RANGE_PLACE: Limits = Limits { low: 0, high: 256 };
/// The limits of a range.
const RANGE_VALUE: Limits = Limits {
    low: 0,
    high: 2_147_483_647,
};
/// The limits of a time in frames.
const FRAMES: Limits = Limits {
    low: 1,
    high: 65_535,
};
/// The limits of a coordinate.
const COORDINATE: Limits = Limits {
    low: -1_073_741_823,
    high: 1_073_741_823,
};
/// The limits of an entry of a matrix.
const ENTRY: Limits = Limits {
    low: -1_048_576,
    high: 1_048_576,
};
/// The limits of an angle.
const ANGLE: Limits = Limits {
    low: -3_600,
    high: 3_600,
};
/// The limits of a number of merges or frames.
const COUNT: Limits = Limits {
    low: 0,
    high: 262_144,
};

static NEW_NODE: [Limits; 1] = [NEW_ID];

static NEW_MATRIX: [Limits; 13] = [
    NEW_ID, ENTRY, ENTRY, ENTRY, ENTRY, ENTRY, ENTRY, ENTRY, ENTRY, ENTRY, COORDINATE, COORDINATE,
    COORDINATE,
];

static GEODE: [Limits; 3] = [NEW_ID, STATE, TRIANGLES];

static GLASS: [Limits; 4] = [NEW_ID, STATE, COLOUR, TRIANGLES];

static VERTS: [Limits; 2] = [ID, TRIANGLES];

static TWO_IDS: [Limits; 2] = [ID, ID];

static INSERTION: [Limits; 3] = [ID, PLACE, ID];

static THREE_IDS: [Limits; 3] = [ID, ID, ID];

static ONE_ID: [Limits; 1] = [ID];

static PICK: [Limits; 2] = [ID, PLACE];

static MATRIX: [Limits; 13] = [
    ID, ENTRY, ENTRY, ENTRY, ENTRY, ENTRY, ENTRY, ENTRY, ENTRY, ENTRY, COORDINATE, COORDINATE,
    COORDINATE,
];

static POINT: [Limits; 4] = [ID, COORDINATE, COORDINATE, COORDINATE];

static ANGLES: [Limits; 4] = [ID, ANGLE, ANGLE, ANGLE];

static SCALE: [Limits; 2] = [ID, ENTRY];

static RANGE: [Limits; 3] = [ID, RANGE_PLACE, RANGE_VALUE];

static TIME: [Limits; 3] = [ID, PLACE, FRAMES];

static TRIANGLE: [Limits; 18] = [
    COORDINATE, COORDINATE, COORDINATE, COLOUR, COLOUR, COLOUR, COORDINATE, COORDINATE, COORDINATE,
    COLOUR, COLOUR, COLOUR, COORDINATE, COORDINATE, COORDINATE, COLOUR, COLOUR, COLOUR,
];

static SIZES: [Limits; 2] = [SIZE, SIZE];

static LENS: [Limits; 3] = [FOCAL_LENGTH, DEPTH, DEPTH];

static BACKGROUND: [Limits; 3] = [COLOUR, COLOUR, COLOUR];

static CHANNEL_COUNT: [Limits; 1] = [CHANNELS];

static VIEW: [Limits; 6] = [COORDINATE, COORDINATE, COORDINATE, ANGLE, ANGLE, ANGLE];

static COUNTS: [Limits; 1] = [COUNT];

static CHANNEL_VIEW_1: [Limits; 7] = [
    Limits { low: 1, high: 1 },
    COORDINATE,
    COORDINATE,
    COORDINATE,
    ANGLE,
    ANGLE,
    ANGLE,
];

static CHANNEL_VIEW_2: [Limits; 7] = [
    Limits { low: 1, high: 2 },
    COORDINATE,
    COORDINATE,
    COORDINATE,
    ANGLE,
    ANGLE,
    ANGLE,
];

static CHANNEL_VIEW_3: [Limits; 7] = [
    Limits { low: 1, high: 3 },
    COORDINATE,
    COORDINATE,
    COORDINATE,
    ANGLE,
    ANGLE,
    ANGLE,
];

static NO_CHANNEL_VIEW: [Limits; 7] = [
    Limits { low: 1, high: 0 },
    COORDINATE,
    COORDINATE,
    COORDINATE,
    ANGLE,
    ANGLE,
    ANGLE,
];

/// The lines, but for the forms of `sw` that have a closing word. A word is looked for in this order, so those of which a
/// play has most come first.
pub static ALL: [Command; 42] = [
    Command::Triangle,
    Command::Edit(Form::Trans),
    Command::Edit(Form::Rot),
    Command::Frame,
    Command::View,
    Command::Edit(Form::Add),
    Command::Edit(Form::SwitchTo),
    Command::Edit(Form::Scale),
    Command::Edit(Form::Remove),
    Command::Edit(Form::Mat),
    Command::Sync,
    Command::Wait,
    Command::Edit(Form::Dcs),
    Command::Edit(Form::Geode),
    Command::Edit(Form::Range),
    Command::Edit(Form::Group),
    Command::Edit(Form::Verts),
    Command::Await,
    Command::Buffer,
    Command::Merge,
    Command::BufferAdd,
    Command::BufferRemove,
    Command::Edit(Form::Delete),
    Command::Edit(Form::Insert),
    Command::Edit(Form::Replace),
    Command::Edit(Form::Glass),
    Command::ChannelView,
    Command::Edit(Form::Centre),
    Command::Edit(Form::Times),
    Command::Edit(Form::Run),
    Command::Edit(Form::Stop),
    Command::Edit(Form::Lod),
    Command::Edit(Form::Seq),
    Command::Edit(Form::Switch),
    Command::Edit(Form::Layer),
    Command::Edit(Form::Scs),
    Command::Size,
    Command::Lens,
    Command::Back,
    Command::Channels,
    Command::App,
    Command::Dbase,
];

impl Form {
    /// The word that the line begins with.
    pub fn text(self) -> &'static [u8]
        ensures { result.now ≡ form_text self }
    {
        match self {
            Form::Group => b"group",
            Form::Switch => b"switch",
            Form::Dcs => b"dcs",
            Form::Lod => b"lod",
            Form::Seq => b"seq",
            Form::Layer => b"layer",
            Form::Scs => b"scs",
            Form::Geode => b"geode",
            Form::Glass => b"glass",
            Form::Verts => b"verts",
            Form::Add => b"add",
            Form::Remove => b"remove",
            Form::Insert => b"insert",
            Form::Replace => b"replace",
            Form::Delete => b"delete",
            Form::Run => b"run",
            Form::Stop => b"stop",
            Form::SwitchTo => b"sw",
            Form::SwitchOn => b"sw",
            Form::SwitchOff => b"sw",
            Form::Mat => b"mat",
            Form::Trans => b"trans",
            Form::Centre => b"centre",
            Form::Rot => b"rot",
            Form::Scale => b"scale",
            Form::Range => b"range",
            Form::Times => b"times",
        }
    }

    /// The limits of the numbers behind the word.
    pub fn limits(self) -> &'static [Limits]
        ensures { result.now ≡ form_limits self }
    {
        match self {
            Form::Group => &NEW_NODE,
            Form::Switch => &NEW_NODE,
            Form::Dcs => &NEW_NODE,
            Form::Lod => &NEW_NODE,
            Form::Seq => &NEW_NODE,
            Form::Layer => &NEW_NODE,
            Form::Scs => &NEW_MATRIX,
            Form::Geode => &GEODE,
            Form::Glass => &GLASS,
            Form::Verts => &VERTS,
            Form::Add => &TWO_IDS,
            Form::Remove => &TWO_IDS,
            Form::Insert => &INSERTION,
            Form::Replace => &THREE_IDS,
            Form::Delete => &ONE_ID,
            Form::Run => &ONE_ID,
            Form::Stop => &ONE_ID,
            Form::SwitchTo => &PICK,
            Form::SwitchOn => &ONE_ID,
            Form::SwitchOff => &ONE_ID,
            Form::Mat => &MATRIX,
            Form::Trans => &POINT,
            Form::Centre => &POINT,
            Form::Rot => &ANGLES,
            Form::Scale => &SCALE,
            Form::Range => &RANGE,
            Form::Times => &TIME,
        }
    }
}

impl Command {
    /// The word that the line begins with.
    pub fn text(self) -> &'static [u8]
        ensures { result.now ≡ text_of self }
    {
        match self {
            Command::Triangle => b"t",
            Command::Size => b"size",
            Command::Lens => b"lens",
            Command::Back => b"back",
            Command::Channels => b"channels",
            Command::App => b"app",
            Command::Dbase => b"dbase",
            Command::View => b"view",
            Command::ChannelView => b"cview",
            Command::Sync => b"sync",
            Command::Frame => b"frame",
            Command::Wait => b"wait",
            Command::Await => b"await",
            Command::Buffer => b"buffer",
            Command::Merge => b"merge",
            Command::BufferAdd => b"badd",
            Command::BufferRemove => b"bremove",
            Command::Edit(form) => form.text(),
        }
    }

    /// How many words stand behind the numbers.
    pub fn tail_len(self) -> usize
        ensures { result ≡ length (tail_of self) }
    {
        match self {
            Command::Edit(Form::SwitchOn | Form::SwitchOff) => 1,
            _ => 0,
        }
    }

    /// The limits of the numbers behind the word, in a play of so many channels.
    pub fn limits(self, channels: u8) -> &'static [Limits]
        requires { channels ≤ 4 }
        ensures { result.now ≡ limits_of channels self }
    {
        match self {
            Command::Triangle => &TRIANGLE,
            Command::Size => &SIZES,
            Command::Lens => &LENS,
            Command::Back => &BACKGROUND,
            Command::Channels => &CHANNEL_COUNT,
            Command::App => &[],
            Command::Dbase => &[],
            Command::View => &VIEW,
            Command::ChannelView => channel_view_limits(channels),
            Command::Sync => &[],
            Command::Frame => &[],
            Command::Wait => &COUNTS,
            Command::Await => &COUNTS,
            Command::Buffer => &[],
            Command::Merge => &[],
            Command::BufferAdd => &TWO_IDS,
            Command::BufferRemove => &TWO_IDS,
            Command::Edit(form) => form.limits(),
        }
    }
}

/// The limits of `cview`: a channel above 0, of which there is none in a play of one channel, and the view.
fn channel_view_limits(channels: u8) -> &'static [Limits]
    requires { channels ≤ 4 }
    ensures { result.now ≡ channel_view_limits channels }
{
    match channels {
        2 => &CHANNEL_VIEW_1,
        3 => &CHANNEL_VIEW_2,
        4 => &CHANNEL_VIEW_3,
        _ => &NO_CHANNEL_VIEW,
    }
}
