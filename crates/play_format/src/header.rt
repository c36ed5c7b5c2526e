//! The header of a play: its version, its size, lens and background, and its number of channels.
ghost use Rattle.std.specs.Prelude.{◌≡◌, [], ◌∷◌, Ok, pos, map, length, MatchResult, false, ◌==◌, if◌then◌else◌};
ghost use Rattle.play_format.specs.declared.refusal.Why.TheVariants as whys;
ghost use Rattle.play_format.specs.Outcomes.{Refuses};
ghost use Rattle.play_format.specs.Places.{may_end, start};
ghost use Rattle.play_format.specs.Grammar.{reading, with_version, judged_version};
ghost use Rattle.play_format.specs.Rests.{unread};
ghost use Rattle.play_format.specs.Early.{IsEnd};
ghost use Rattle.play_format.specs.Sections.{stand_of, unread_by, LineRead, Passes, IsAt, IsSize, StartRead, HeaderRead};
ghost use Rattle.play_format.specs.declared.commands.Command.TheVariants as command;
ghost use Rattle.play_format.specs.declared.places.Place.TheVariants as place;

use crate::commands::Command;
use crate::making::{u8_at, u16_at};
use crate::places::{Version, number};
use crate::reader::{MAX_LINE_LEN, Reader};
use crate::refusal::{ParseError, Refusal, Why};
use crate::words::cut;
use fx_math::Lens;
use pf_io::MAX_PLAY_BYTES;

/// Reads a line where a play may not end.
fn line(reader: &mut Reader, numbers: &mut Vec<i32>) -> Result<Command, ParseError>
    requires { may_end reader.old.spot ≡ false }
    ensures { MatchResult result
        (λ c. LineRead (stand_of reader.old) (stand_of reader.new) c numbers.new.items)
        (λ e. Refuses e (unread_by reader.old)) }
{
    match reader.next(numbers)? {
        Some(command) => Ok(command),
        None => unreachable!(),
    }
}

/// Reads the line `size`: the width and the height.
fn size(reader: &mut Reader, numbers: &mut Vec<i32>) -> Result<(u16, u16), ParseError>
    requires { IsAt place.Size (stand_of reader.old) }
    ensures { MatchResult result
        (λ r. Passes (stand_of reader.old) (stand_of reader.new) ((command.Size, pos r.0 ∷ pos r.1 ∷ []) ∷ [])
        × IsAt place.Lens (stand_of reader.new) × IsSize r.0 r.1)
        (λ e. Refuses e (unread_by reader.old)) }
{
    line(reader, numbers)?;
    Ok((u16_at(numbers, 0), u16_at(numbers, 1)))
}

/// Reads the line `lens`, for pictures of this size.
fn lens(reader: &mut Reader, numbers: &mut Vec<i32>, w: u16, h: u16) -> Result<Lens, ParseError>
    requires place { IsAt place.Lens (stand_of reader.old) }
    requires size { IsSize w h }
    ensures { MatchResult result
        (λ l. Passes (stand_of reader.old) (stand_of reader.new) ((command.Lens, pos l.f ∷ l.near ∷ l.far ∷ []) ∷ [])
        × IsAt place.Back (stand_of reader.new) × (l.w ≡ w) × (l.h ≡ h))
        (λ e. Refuses e (unread_by reader.old)) }
{
    line(reader, numbers)?;
    let (near, far) = (number(numbers, 1), number(numbers, 2));
    match Lens::new(w, h, u16_at(numbers, 0), near, far) {
        Some(lens) => Ok(lens),
        None => unreachable!(),
    }
}

/// Reads the line `back`: the red, green and blue of the background.
fn back(reader: &mut Reader, numbers: &mut Vec<i32>) -> Result<[u8; 3], ParseError>
    requires { IsAt place.Back (stand_of reader.old) }
    ensures { MatchResult result
        (λ b. Passes (stand_of reader.old) (stand_of reader.new) ((command.Back, map pos b) ∷ [])
        × IsAt place.Start (stand_of reader.new) × (length b ≡ 3))
        (λ e. Refuses e (unread_by reader.old)) }
{
    line(reader, numbers)?;
    Ok([u8_at(numbers, 0), u8_at(numbers, 1), u8_at(numbers, 2)])
}

/// Reads the line `app`, and before it `channels` where it stands.
fn start(reader: &mut Reader, numbers: &mut Vec<i32>) -> Result<(), ParseError>
    requires { IsAt place.Start (stand_of reader.old) }
    ensures { MatchResult result
        (λ _. StartRead (stand_of reader.old) (stand_of reader.new))
        (λ e. Refuses e (unread_by reader.old)) }
{
    match line(reader, numbers)? {
        Command::Channels => {
            line(reader, numbers)?;
            Ok(())
        }
        _ => Ok(()),
    }
}

/// Reads the header behind the first line: the lens and the background.
pub fn header(reader: &mut Reader, numbers: &mut Vec<i32>) -> Result<(Lens, [u8; 3]), ParseError>
    requires place { IsAt place.Size (stand_of reader.old) }
    requires channels { reader.old.spot.channels ≡ 1 }
    ensures { MatchResult result
        (λ r. HeaderRead (stand_of reader.old) (stand_of reader.new) r.0 r.1)
        (λ e. Refuses e (unread_by reader.old)) }
{
    let (w, h) = size(reader, numbers)?;
    let lens = lens(reader, numbers, w, h)?;
    let back = back(reader, numbers)?;
    start(reader, numbers)?;
    Ok((lens, back))
}

/// Reads the first line of a text: the version, and what is left behind it.
pub fn version(text: &[u8]) -> Result<(Version, &[u8]), ParseError>
    ensures { MatchResult result
        (λ r. (reading text.now ≡ with_version r.0 (unread (start r.0) 2 r.1.now)) × IsEnd text.now r.1.now)
        (λ e. Refuses e (reading text.now)) }
{
    if text.len() > MAX_PLAY_BYTES {
        return Err(ParseError::Refused(Refusal {
            line: 0,
            why: Why::Length,
        }));
    }
    let Some((line, rest)) = cut(text, b'\n') else {
        return Err(ParseError::Refused(Refusal {
            line: 1,
            why: unended(text),
        }));
    };
    match version_of(line) {
        Ok(version) => Ok((version, rest)),
        Err(why) => Err(ParseError::Refused(Refusal { line: 1, why })),
    }
}

/// What is wrong with a text without a line feed.
fn unended(text: &[u8]) -> Why
    ensures { result ≡ (if length text.now == 0 then whys.Count else whys.Length) }
{
    if text.is_empty() {
        Why::Count
    } else {
        Why::Length
    }
}

/// The version that a line names.
fn version_of(line: &[u8]) -> Result<Version, Why>
    ensures { result ≡ judged_version line.now }
{
    if line.len() > MAX_LINE_LEN {
        Err(Why::Length)
    } else if line == b"perfly 1".as_slice() {
        Ok(Version::One)
    } else if line == b"perfly 2".as_slice() {
        Ok(Version::Two)
    } else {
        Err(Why::Version)
    }
}
