//! The text of an edit, as a play spells it.
ghost use Rattle.std.specs.Prelude.{◌≡◌, ◌++◌, OnOk, OnErr, map, pos};
ghost use Rattle.play_format.specs.Spelling.{kind_form, pick_form, edit_form, kind_numbers, pick_numbers};
ghost use Rattle.play_format.specs.Spelling.{edit_numbers, edit_text, matrix_numbers, point_numbers};
ghost use Rattle.play_format.specs.Texts.{number_text, numbers_text, tail_text};

use crate::commands::Form;
use fx_math::{Affine, Vec3};
use itoa::Buffer;
use pf_io::NoMemory;
use pf_model::{Edit, Kind, Pick};
use std::alloc::Global;

fn kind_form(kind: &Kind) -> Form
    ensures { result ≡ kind_form kind.now }
{
    match kind {
        Kind::Group => Form::Group,
        Kind::Switch(_) => Form::Switch,
        Kind::Scs(_) => Form::Scs,
        Kind::Dcs(_) => Form::Dcs,
        Kind::Lod { .. } => Form::Lod,
        Kind::Seq { .. } => Form::Seq,
        Kind::Layer => Form::Layer,
        Kind::Geode { .. } => Form::Geode,
        Kind::Glass { .. } => Form::Glass,
    }
}

fn pick_form(pick: &Pick) -> Form
    ensures { result ≡ pick_form pick.now }
{
    match pick {
        Pick::On => Form::SwitchOn,
        Pick::Off => Form::SwitchOff,
        Pick::One(_) => Form::SwitchTo,
    }
}

fn edit_form(edit: &Edit) -> Form
    ensures { result ≡ edit_form edit.now }
{
    match edit {
        Edit::Make { kind, .. } => kind_form(kind),
        Edit::Add { .. } => Form::Add,
        Edit::Insert { .. } => Form::Insert,
        Edit::Replace { .. } => Form::Replace,
        Edit::Remove { .. } => Form::Remove,
        Edit::Delete { .. } => Form::Delete,
        Edit::Pick { pick, .. } => pick_form(pick),
        Edit::Mat { .. } => Form::Mat,
        Edit::Trans { .. } => Form::Trans,
        Edit::Rot { .. } => Form::Rot,
        Edit::Scale { .. } => Form::Scale,
        Edit::Range { .. } => Form::Range,
        Edit::Centre { .. } => Form::Centre,
        Edit::Times { .. } => Form::Times,
        Edit::Run { .. } => Form::Run,
        Edit::Stop { .. } => Form::Stop,
        Edit::Verts { .. } => Form::Verts,
    }
}

fn push_number(out: &mut Vec<u8>, n: i64) -> Result<(), NoMemory>
    ensures { OnOk result (out.new.items ≡ out.old.items ++ number_text n) }
{
    out.push(b' ')?;
    out.extend_from_slice(Buffer::new().format(n).as_bytes())?;
    Ok(())
}

fn push_numbers(out: &mut Vec<u8>, numbers: &[i64]) -> Result<(), NoMemory>
    ensures { OnOk result (out.new.items ≡ out.old.items ++ numbers_text numbers.now) }
{
    for n in numbers {
        push_number(out, *n)?;
    }
    Ok(())
}

fn push_point(out: &mut Vec<u8>, v: &Vec3) -> Result<(), NoMemory>
    ensures { OnOk result (out.new.items ≡ out.old.items ++ numbers_text (point_numbers v.now)) }
{
    push_numbers(out, &[i64::from(v.x), i64::from(v.y), i64::from(v.z)])
}

fn push_row(out: &mut Vec<u8>, row: [i32; 3]) -> Result<(), NoMemory>
    ensures { OnOk result (out.new.items ≡ out.old.items ++ numbers_text row) }
{
    for n in &row {
        push_number(out, i64::from(*n))?;
    }
    Ok(())
}

fn push_matrix(out: &mut Vec<u8>, m: &Affine) -> Result<(), NoMemory>
    ensures { OnOk result (out.new.items ≡ out.old.items ++ numbers_text (matrix_numbers m.now)) }
{
    for row in &m.a {
        push_row(out, *row)?;
    }
    push_point(out, &m.t)
}

fn push_kind(out: &mut Vec<u8>, kind: &Kind) -> Result<(), NoMemory>
    ensures { OnOk result (out.new.items ≡ out.old.items ++ numbers_text (kind_numbers kind.now)) }
{
    match kind {
        Kind::Scs(mat) => push_matrix(out, mat),
        Kind::Geode { state, geom } => {
            push_numbers(out, &[i64::from(*state), geom.len() as i64])
        }
        Kind::Glass { state, alpha, geom } => push_numbers(
            out,
            &[i64::from(*state), i64::from(*alpha), geom.len() as i64],
        ),
        _ => Ok(()),
    }
}

fn push_pick(out: &mut Vec<u8>, pick: &Pick) -> Result<(), NoMemory>
    ensures { OnOk result (out.new.items ≡ out.old.items ++ numbers_text (pick_numbers pick.now)) }
{
    match pick {
        Pick::One(place) => push_number(out, i64::from(*place)),
        _ => Ok(()),
    }
}

fn push_ids(out: &mut Vec<u8>, ids: &[u16]) -> Result<(), NoMemory>
    ensures { OnOk result (out.new.items ≡ out.old.items ++ numbers_text (map pos ids.now)) }
{
    for id in ids {
        push_number(out, i64::from(*id))?;
    }
    Ok(())
}

/// Appends the numbers of an edit, each behind a space.
fn push_edit_numbers(out: &mut Vec<u8>, edit: &Edit) -> Result<(), NoMemory>
    ensures { OnOk result (out.new.items ≡ out.old.items ++ numbers_text (edit_numbers edit.now)) }
{
    match edit {
        Edit::Make { id, kind } => {
            push_ids(out, &[*id])?;
            push_kind(out, kind)
        }
        Edit::Add { parent, child } => push_ids(out, &[*parent, *child]),
        Edit::Insert {
            parent,
            place,
            child,
        } => push_ids(out, &[*parent, *place, *child]),
        Edit::Replace { parent, child, by } => push_ids(out, &[*parent, *child, *by]),
        Edit::Remove { parent, child } => push_ids(out, &[*parent, *child]),
        Edit::Delete { id } => push_ids(out, &[*id]),
        Edit::Pick { id, pick } => {
            push_ids(out, &[*id])?;
            push_pick(out, pick)
        }
        Edit::Mat { id, mat } => {
            push_ids(out, &[*id])?;
            push_matrix(out, mat)
        }
        Edit::Trans { id, t } => {
            push_ids(out, &[*id])?;
            push_point(out, t)
        }
        Edit::Rot { id, h, p, r } => push_numbers(
            out,
            &[i64::from(*id), i64::from(*h), i64::from(*p), i64::from(*r)],
        ),
        Edit::Scale { id, s } => push_numbers(out, &[i64::from(*id), i64::from(*s)]),
        Edit::Range { id, place, value } => push_numbers(
            out,
            &[i64::from(*id), i64::from(*place), i64::from(*value)],
        ),
        Edit::Centre { id, at } => {
            push_ids(out, &[*id])?;
            push_point(out, at)
        }
        Edit::Times { id, place, frames } => push_ids(out, &[*id, *place, *frames]),
        Edit::Run { id } => push_ids(out, &[*id]),
        Edit::Stop { id } => push_ids(out, &[*id]),
        Edit::Verts { id, geom } => { push_numbers(out, &[i64::from(*id), geom.len() as i64]) }
    }
}

/// The closing word of an edit behind a space, where it has one.
fn closing(form: Form) -> &'static [u8]
    ensures { result.now ≡ tail_text form }
{
    match form {
        Form::SwitchOn => b" on",
        Form::SwitchOff => b" off",
        _ => b"",
    }
}

fn push_edit(out: &mut Vec<u8>, edit: &Edit) -> Result<(), NoMemory>
    ensures { OnOk result (out.new.items ≡ out.old.items ++ edit_text edit.now) }
{
    let form = edit_form(edit);
    out.extend_from_slice(form.text())?;
    push_edit_numbers(out, edit)?;
    out.extend_from_slice(closing(form))?;
    Ok(())
}

/// Appends the text of an edit: its line in a play, without the line feed and without triangle lines. Where memory runs out,
/// `out` is as before.
pub fn append_edit(alloc: Global, out: &mut Vec<u8>, edit: &Edit) -> Result<(), NoMemory>
    ensures text { OnOk result (out.new.items ≡ out.old.items ++ edit_text edit.now) }
    ensures kept { OnErr result (out.new.items ≡ out.old.items) }
{
    let mut text = Vec::new(alloc);
    push_edit(&mut text, edit)?;
    out.extend_from_slice(text.as_slice())?;
    Ok(())
}
