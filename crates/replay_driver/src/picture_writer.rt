// Writes pictures, row by row.
ghost use Rattle.std.specs.Prelude.{◌≡◌, ◌*◌, ◌+◌, ◌≤◌, ◌<◌, All, length, map, pos, ◌≤ℤ◌, IfOk, OnOk, OnErr};
ghost use Rattle.std.specs.List.{flat_map};
ghost use Rattle.gui_num.specs.Rects.{nat_of};
ghost use Rattle.io_ports.specs.Content.{Grows, GrowsPart};
ghost use Rattle.io_ports.specs.Counts.{HasCause};
ghost use Rattle.compositor.specs.PictureView.{LiesIn};
ghost use Rattle.replay_driver.specs.PictureRecords.{head_of, part_of_row, colours_of, output_record, picture_records};
ghost use Rattle.record_format.specs.OutputGrammar.{rgb, picture_head};

use compositor::Picture;
use gui_num::Rect;
use io_ports::{Failed, Sink, put_all};
use std::alloc::{AllocError, Global};
use std::marker::Model;

// Spells the colours of a row, three bytes each.
fn spell_row(colours: &[u32], line: &mut [u8])
    requires { length line.old ≡ 3 * length colours.now }
    ensures { line.new ≡ flat_map rgb colours.now }
{
    let mut at = 0;
    for colour in colours {
        line[at] = (*colour / 65536 % 256) as u8;
        line[at + 1] = (*colour / 256 % 256) as u8;
        line[at + 2] = (*colour % 256) as u8;
        at += 3;
    }
}

// How each Picture record of this size begins.
fn picture_head(alloc: Global, width: u32, height: u32) -> Result<Vec<u8>, AllocError>
    requires narrow { width ≤ 8192 }
    requires low { height ≤ 8192 }
    ensures { IfOk result (λ head. head.items ≡ picture_head width height) }
{
    let text = format!(in alloc; "P6\n{width} {height}\n255\n")?;
    let size = text.len() + 3 * (width as usize * height as usize);
    let mut head = Vec::new(alloc);
    head.push(3)?;
    head.extend_from_slice(&(size as u32).to_le_bytes())?;
    head.extend_from_slice(text.as_bytes())?;
    Ok(head)
}

/// How each Picture record of an output begins, seen as its bytes.
#[derive(Drop)]
pub struct Head {
    bytes: Vec<u8>,
}

impl Model for Head {
    ghost use Rattle.std.specs.Prelude.{List, ℕ};

    ghost Value = { List ℕ };

    ghost view = { λ h. h.bytes.items };
}

impl Head {
    // How each Picture record of this output begins.
    fn new(alloc: Global, output: Rect) -> Result<Head, AllocError>
        requires narrow { output.w ≤ 8192 }
        requires low { output.h ≤ 8192 }
        ensures { IfOk result (λ head. head ≡ head_of output) }
    {
        let bytes = picture_head(alloc, output.w, output.h)?;
        Ok(Head { bytes })
    }

    // Its bytes.
    fn bytes(&self) -> &[u8]
        ensures { result.now ≡ self.now }
    {
        &self.bytes
    }
}

/// How the Picture record of each of these outputs begins, in their order. They lie in a plane of
/// this width and height. `AllocError` where there is no memory for that.
pub fn picture_heads(
    alloc: Global,
    outputs: &[Rect],
    width: u32,
    height: u32,
) -> Result<Vec<Head>, AllocError>
    requires narrow { width ≤ 8192 }
    requires low { height ≤ 8192 }
    requires placed { All (LiesIn width height) outputs.now }
    ensures { IfOk result (λ heads. heads.items ≡ map head_of outputs.now) }
{
    let mut heads = Vec::new(alloc);
    for n in 0..outputs.len() {
        heads.push(Head::new(alloc, outputs[n])?)?;
    }
    Ok(heads)
}

// A column or row of the plane.
fn place(a: i32) -> u32
    requires { pos 0 ≤ℤ a }
    ensures { result ≡ nat_of a }
{
    a as u32
}

// The colours of an output in its row `n`, counted from its top.
fn output_row(picture: &Picture, output: Rect, n: u32) -> &[u32]
    requires high { picture.now.height ≤ 8192 }
    requires placed { LiesIn picture.now.width picture.now.height output }
    requires row { n < output.h }
    ensures row { result.now ≡ part_of_row picture.now output (nat_of output.y + n) }
    ensures len { length result.now ≡ output.w }
{
    let left = place(output.x) as usize;
    let top = place(output.y);
    let row = picture.row(top + n);
    &row[left..left + output.w as usize]
}

// Writes the rows of an output from its top.
fn put_rows<K: Sink>(
    out: &mut K,
    picture: &Picture,
    output: Rect,
    line: &mut [u8],
) -> Result<(), Failed>
    requires line { length line.old ≡ 3 * output.w }
    requires high { picture.now.height ≤ 8192 }
    requires placed { LiesIn picture.now.width picture.now.height output }
    ensures ok { OnOk result (Grows (K.written out.old) (flat_map rgb (colours_of picture.now output)) (K.written out.new)) }
    ensures err { OnErr result (GrowsPart (K.written out.old) (flat_map rgb (colours_of picture.now output)) (K.written out.new)) }
    ensures keeps { K.keeps out.old out.new }
    ensures cause { HasCause (K.faults out.old) (K.faults out.new) result }
{
    for n in 0..output.h {
        spell_row(output_row(picture, output, n), line);
        match put_all(out, line) {
            Ok(()) => {}
            Err(e) => return Err(e),
        }
    }
    Ok(())
}

// Writes the Picture record of an output: the head is how it begins, and the line has room for the
// bytes of one of its rows.
fn put_picture<K: Sink>(
    out: &mut K,
    head: &[u8],
    picture: &Picture,
    output: Rect,
    line: &mut [u8],
) -> Result<(), Failed>
    requires head { head.now ≡ head_of output }
    requires line { length line.old ≡ 3 * output.w }
    requires high { picture.now.height ≤ 8192 }
    requires placed { LiesIn picture.now.width picture.now.height output }
    ensures ok { OnOk result (Grows (K.written out.old) (output_record picture.now output) (K.written out.new)) }
    ensures err { OnErr result (GrowsPart (K.written out.old) (output_record picture.now output) (K.written out.new)) }
    ensures keeps { K.keeps out.old out.new }
    ensures cause { HasCause (K.faults out.old) (K.faults out.new) result }
{
    match put_all(out, head) {
        Ok(()) => put_rows(out, picture, output, line),
        Err(e) => Err(e),
    }
}

/// Writes a Picture record for each output, in their order: the heads are how these begin, and the
/// line has room for the bytes of a row of the plane.
pub fn put_pictures<K: Sink>(
    out: &mut K,
    heads: &[Head],
    picture: &Picture,
    line: &mut [u8],
) -> Result<(), Failed>
    requires heads { heads.now ≡ map head_of picture.now.outputs }
    requires line { length line.old ≡ 3 * picture.now.width }
    requires high { picture.now.height ≤ 8192 }
    ensures ok { OnOk result (Grows (K.written out.old) (picture_records picture.now) (K.written out.new)) }
    ensures err { OnErr result (GrowsPart (K.written out.old) (picture_records picture.now) (K.written out.new)) }
    ensures keeps { K.keeps out.old out.new }
    ensures cause { HasCause (K.faults out.old) (K.faults out.new) result }
{
    let outputs = picture.outputs();
    for n in 0..outputs.len() {
        let output = outputs[n];
        let room = 3 * output.w as usize;
        match put_picture(out, heads[n].bytes(), picture, output, &mut line[..room]) {
            Ok(()) => {}
            Err(e) => return Err(e),
        }
    }
    Ok(())
}
