// The regions' words in a report.
ghost use Rattle.std.specs.Prelude.{◌≡◌, ℕ, ◌<◌, ◌^◌, ◌++◌, length, sum, OnOk, IfOk, string_bytes};
ghost use Rattle.cd_base.specs.Words.{word_at, word_of};
ghost use Rattle.cd_field.specs.FieldModel.{IsPresent};
ghost use Rattle.cd_report.specs.Texts.{region_line, region_lines, words_from, listed, summed, weighted, AllPresent};

use cd_base::Place;
use cd_field::Field;
use cd_tree::Region;
use std::alloc::{AllocError, Global};

/// Puts a line for each region behind a text.
pub fn add_regions<F: Field>(
    alloc: Global,
    regions: &[Region],
    machine: &F,
    text: &mut String,
) -> Result<(), AllocError>
    requires few { length regions.now < 2 ^ 32 }
    requires present { AllPresent (F.model machine.now) regions.now }
    ensures { OnOk result (string_bytes text.new ≡ string_bytes text.old ++ region_lines (F.model machine.now).words 0 regions.now) }
{
    for (number, region) in regions.iter().enumerate() {
        add_region(alloc, region, number as u32, machine, text)?;
    }
    Ok(())
}

/// Puts the line of one region behind a text.
fn add_region<F: Field>(
    alloc: Global,
    region: &Region,
    number: u32,
    machine: &F,
    text: &mut String,
) -> Result<(), AllocError>
    requires { (i : ℕ) → i < region.now.length → IsPresent (F.model machine.now) (record { region = number; index = i }) }
    ensures { OnOk result (string_bytes text.new ≡ string_bytes text.old ++ region_line (F.model machine.now).words number region.now) }
{
    text.push_str("region ")?;
    text.push_str(region.name.as_str())?;
    if region.length > 16 {
        text.push_str(&sums_text(alloc, machine, number, region.length)?)?;
        return text.push_str("\n");
    }
    add_words(alloc, machine, number, region.length, text)?;
    text.push_str("\n")
}

/// The length of a region and the sums of its words.
fn sums_text<F: Field>(
    alloc: Global,
    machine: &F,
    region: u32,
    length: u32,
) -> Result<String, AllocError>
    requires { (i : ℕ) → i < length → IsPresent (F.model machine.now) (record { region = region; index = i }) }
    ensures { IfOk result (λ text. string_bytes text ≡ summed length (words_from (F.model machine.now).words region 0 length)) }
{
    let sum = sum_of(machine, region, length);
    let weighted = weighted_sum_of(machine, region, length);
    let text = format!(in alloc; " length {length} sum {sum} weighted {weighted}")?;
    Ok(text)
}

/// Puts the words of a region behind a text, each after a space.
fn add_words<F: Field>(
    alloc: Global,
    machine: &F,
    region: u32,
    length: u32,
    text: &mut String,
) -> Result<(), AllocError>
    requires { (i : ℕ) → i < length → IsPresent (F.model machine.now) (record { region = region; index = i }) }
    ensures { OnOk result (string_bytes text.new ≡ string_bytes text.old ++ listed (words_from (F.model machine.now).words region 0 length)) }
{
    for index in 0..length {
        let word = word(machine, region, index);
        text.push_str(&format!(in alloc; " {word}")?)?;
    }
    Ok(())
}

/// The sum of a region's words, modulo 2^64. It takes no memory.
fn sum_of<F: Field>(machine: &F, region: u32, length: u32) -> u64
    requires { (i : ℕ) → i < length → IsPresent (F.model machine.now) (record { region = region; index = i }) }
    ensures { result ≡ word_of (sum (words_from (F.model machine.now).words region 0 length)) }
{
    let mut sum = 0u64;
    for index in 0..length {
        sum = sum.wrapping_add(word(machine, region, index));
    }
    sum
}

/// The sum of a region's words, each times its place from 1 on, modulo 2^64. It takes no memory.
fn weighted_sum_of<F: Field>(machine: &F, region: u32, length: u32) -> u64
    requires { (i : ℕ) → i < length → IsPresent (F.model machine.now) (record { region = region; index = i }) }
    ensures { result ≡ word_of (weighted 1 (words_from (F.model machine.now).words region 0 length)) }
{
    let mut sum = 0u64;
    for index in 0..length {
        let word = word(machine, region, index);
        sum = sum.wrapping_add((u64::from(index) + 1).wrapping_mul(word));
    }
    sum
}

/// One word of a region. It takes no memory.
fn word<F: Field>(machine: &F, region: u32, index: u32) -> u64
    requires { IsPresent (F.model machine.now) (record { region = region; index = index }) }
    ensures { result ≡ word_at (F.model machine.now).words (record { region = region; index = index }) }
{
    machine.read(Place { region, index })
}
