// The generated document, made from a template.
ghost use Rattle.std.specs.Prelude.{◌≡◌, ◌<◌, ◌≤◌, ◌++◌, OnOk, IfOk};
ghost use Rattle.cd_base.specs.Ends.{WriteAll};
ghost use Rattle.cd_make.specs.Making.{template, filled, number_for, make_text};

use cd_base::{NoMemory, Sink, WriteStop, write_all};
use std::alloc::Global;

const TEMPLATE: &str = "cd 1\n\
region starts S iota 0 2\n\
region cols C iota 0 1\n\
region vals C const 3\n\
region x C iota 1 1\n\
region y R const 0\n\
region total 1 const 0\n\
region u U iota 0 1\n\
region t T const 0\n\
domain root retry 3 detects node\n\
preserve starts copy\n\
preserve cols copy\n\
preserve vals copy\n\
preserve x copy\n\
preserve y copy\n\
preserve total copy\n\
preserve u copy\n\
preserve t copy\n\
group\n\
for a in 0..N\n\
domain part:a retry 2 detects lost,link\n\
preserve starts[P*a..P*a+Q] refer\n\
preserve cols refer\n\
preserve vals refer\n\
preserve x refer\n\
preserve y[P*a..P*a+P] copy\n\
group\n\
for b in 0..N\n\
domain rows:b retry 3 detects flip\n\
preserve starts[P*a+16*b..P*a+16*b+17] refer\n\
preserve cols refer\n\
preserve vals refer\n\
preserve x refer\n\
preserve y[P*a+16*b..P*a+16*b+16] refer\n\
spmv y[P*a+16*b..P*a+16*b+16] starts[P*a+16*b..P*a+16*b+17] cols vals x\n\
end\nend\nend\nend\nend\nend\n\
group\n\
for a in 0..N\n\
domain strip:a retry 2 detects flip\n\
preserve u[64*a..64*a+66] refer\n\
preserve t[64*a..64*a+64] copy\n\
stencil t[64*a..64*a+64] 1 2 1 u[64*a..64*a+66]\n\
end\nend\nend\n\
sum total y\n\
end\n\
faults\n\
for a in 0..N\n\
strike root/part:a/rows:0 1 1 flip y[P*a] 1\n\
end\n\
strike root 1 3 node total[0] 7\n";

/// Writes the generated document of a size: its program has `size` parts of `size` blocks of sixteen rows each, and `size`
/// strips of 64 words. The whole text, of less than 2,000 bytes, is made in memory before it is written.
pub fn write_make<K: Sink>(alloc: Global, size: u32, sink: &mut K) -> Result<(), WriteStop>
    requires some { 0 < size }
    requires few { size ≤ 14 }
    ensures { WriteAll (K.model sink.old) (K.model sink.new) (make_text size) result }
{
    match whole_text(alloc, size) {
        Ok(text) => write_all(sink, text.as_slice()),
        Err(NoMemory) => Err(WriteStop::NoMemory),
    }
}

/// The text of the document.
#[tactic(auto, unfolding(crate::specs::Making::make_text))]
fn whole_text(alloc: Global, size: u32) -> Result<Vec<u8>, NoMemory>
    requires { size ≤ 14 }
    ensures { IfOk result (λ text. text.items ≡ make_text size) }
{
    let mut text = Vec::new(alloc);
    for letter in template() {
        add_letter(alloc, *letter, size, &mut text)?;
    }
    Ok(text)
}

/// The template, whose letters are bytes.
fn template() -> &'static [u8]
    ensures { result.now ≡ template }
{
    TEMPLATE.as_bytes()
}

/// Puts behind a text what stands for a letter of the template.
fn add_letter(alloc: Global, letter: u8, size: u32, text: &mut Vec<u8>) -> Result<(), NoMemory>
    requires { size ≤ 14 }
    ensures { OnOk result (text.new.items ≡ text.old.items ++ filled size letter) }
{
    match number_for(letter, size) {
        None => text.push(letter)?,
        Some(number) => text.extend_from_slice(format!(in alloc; "{number}")?.as_bytes())?,
    }
    Ok(())
}

/// The number for which a letter of the template stands.
fn number_for(letter: u8, size: u32) -> Option<u32>
    requires { size ≤ 14 }
    ensures { result ≡ number_for size letter }
{
    let rows = 16 * size * size;
    match letter {
        b'N' => Some(size),
        b'R' => Some(rows),
        b'C' => Some(2 * rows),
        b'S' => Some(rows + 1),
        b'P' => Some(16 * size),
        b'Q' => Some(16 * size + 1),
        b'T' => Some(64 * size),
        b'U' => Some(64 * size + 2),
        _ => None,
    }
}
