//! What the numbers of a line make.
ghost use Rattle.std.specs.Prelude.{◌≡◌, ◌+◌, ◌<◌};
ghost use Rattle.play_format.specs.Making.{below, u8_at, u16_at, u32_at, vector, vector_at, is_within, is_row, are_entries, affine, three_at, affine_at, angle_at, view_at, colour_at, tri_of, app_step_of, base_step_of};
ghost use Rattle.fx_math.specs.Within.{IsWithin};

use crate::commands::Command;
use crate::edits::{add, edit_of, remove};
use crate::places::number;
use fx_math::{Affine, MAX_ENTRY, Vec3};
use pf_model::{AppStep, BaseStep, Geom, Tri, View};
use std::alloc::Global;

/// Number `k` of a line as a number of 8 bits.
pub fn u8_at(numbers: &[i32], k: usize) -> u8
    ensures { result ≡ u8_at numbers.now k }
{
    u8::try_from(number(numbers, k)).unwrap_or(0)
}

/// Number `k` of a line as a number of 16 bits.
pub fn u16_at(numbers: &[i32], k: usize) -> u16
    ensures { result ≡ u16_at numbers.now k }
{
    u16::try_from(number(numbers, k)).unwrap_or(0)
}

/// Number `k` of a line as a number of 32 bits.
pub fn u32_at(numbers: &[i32], k: usize) -> u32
    ensures { result ≡ u32_at numbers.now k }
{
    u32::try_from(number(numbers, k)).unwrap_or(0)
}

/// The vector of three numbers.
fn vector(x: i32, y: i32, z: i32) -> Vec3
    ensures { result ≡ vector x y z }
{
    let Some(v) = Vec3::new(x, y, z) else {
        return Vec3::ORIGIN;
    };
    v
}

/// The vector of the numbers from number `k` on.
pub fn vector_at(numbers: &[i32], k: usize) -> Vec3
    requires { k < 100 }
    ensures { result ≡ vector_at numbers.now k }
{
    vector(
        number(numbers, k),
        number(numbers, k + 1),
        number(numbers, k + 2),
    )
}

fn is_entry(z: i32) -> bool
    ensures { result ≡ is_within 1048576 z }
{
    z.unsigned_abs() <= MAX_ENTRY.unsigned_abs()
}

fn is_row(row: [i32; 3]) -> bool
    ensures { result ≡ is_row row }
{
    let [x, y, z] = row;
    is_entry(x) && is_entry(y) && is_entry(z)
}

fn are_entries(a: [[i32; 3]; 3]) -> bool
    ensures { result ≡ are_entries a }
{
    let [x, y, z] = a;
    is_row(x) && is_row(y) && is_row(z)
}

/// The step of a matrix and a translation.
fn affine(a: [[i32; 3]; 3], t: Vec3) -> Affine
    ensures { result ≡ affine a t }
{
    if !are_entries(a) {
        return Affine::IDENTITY;
    }
    Affine { a, t }
}

fn three_at(numbers: &[i32], k: usize) -> [i32; 3]
    requires { k < 100 }
    ensures { result ≡ three_at numbers.now k }
{
    [
        number(numbers, k),
        number(numbers, k + 1),
        number(numbers, k + 2),
    ]
}

/// The step of the twelve numbers from number `k` on: three rows and a translation.
pub fn affine_at(numbers: &[i32], k: usize) -> Affine
    requires { k < 90 }
    ensures { result ≡ affine_at numbers.now k }
{
    let a = [
        three_at(numbers, k),
        three_at(numbers, k + 3),
        three_at(numbers, k + 6),
    ];
    affine(a, vector_at(numbers, k + 9))
}

/// Number `k` as an angle in tenths of a degree.
fn angle_at(numbers: &[i32], k: usize) -> i32
    ensures value { result ≡ angle_at numbers.now k }
    ensures within { IsWithin 3600 result }
{
    let angle = number(numbers, k);
    if angle.unsigned_abs() <= 3_600 {
        angle
    } else {
        0
    }
}

/// The view of the six numbers from number `k` on.
fn view_at(numbers: &[i32], k: usize) -> View
    requires { k < 90 }
    ensures { result ≡ view_at numbers.now k }
{
    View {
        eye: vector_at(numbers, k),
        h: angle_at(numbers, k + 3),
        p: angle_at(numbers, k + 4),
        r: angle_at(numbers, k + 5),
    }
}

fn colour_at(numbers: &[i32], k: usize) -> [u8; 3]
    requires { k < 100 }
    ensures { result ≡ colour_at numbers.now k }
{
    [
        u8_at(numbers, k),
        u8_at(numbers, k + 1),
        u8_at(numbers, k + 2),
    ]
}

/// The triangle of a triangle line.
pub fn tri_of(numbers: &[i32]) -> Tri
    ensures { result ≡ tri_of numbers.now }
{
    Tri {
        v: [
            vector_at(numbers, 0),
            vector_at(numbers, 6),
            vector_at(numbers, 12),
        ],
        c: [
            colour_at(numbers, 3),
            colour_at(numbers, 9),
            colour_at(numbers, 15),
        ],
    }
}

/// The step of the application that a line makes; None where it makes none.
pub fn app_step_of(alloc: Global, command: Command, numbers: &[i32], geom: Geom) -> Option<AppStep>
    ensures { result ≡ app_step_of command numbers.now geom }
{
    match command {
        Command::View => Some(AppStep::View(0, view_at(numbers, 0))),
        Command::ChannelView => Some(AppStep::View(u8_at(numbers, 0), view_at(numbers, 1))),
        Command::Sync => Some(AppStep::Sync),
        Command::Frame => Some(AppStep::Frame),
        Command::Wait => Some(AppStep::Wait(u32_at(numbers, 0))),
        Command::Edit(form) => Some(AppStep::Edit(edit_of(alloc, form, numbers, geom))),
        _ => None,
    }
}

/// The step of the database process that a line makes; None where it makes none.
pub fn base_step_of(
    alloc: Global,
    command: Command,
    numbers: &[i32],
    geom: Geom,
) -> Option<BaseStep>
    ensures { result ≡ base_step_of command numbers.now geom }
{
    match command {
        Command::Await => Some(BaseStep::Await(u32_at(numbers, 0))),
        Command::Buffer => Some(BaseStep::Buffer),
        Command::Merge => Some(BaseStep::Merge),
        Command::BufferAdd => Some(BaseStep::Ask(add(numbers))),
        Command::BufferRemove => Some(BaseStep::Ask(remove(numbers))),
        Command::Edit(form) => Some(BaseStep::Edit(edit_of(alloc, form, numbers, geom))),
        _ => None,
    }
}
