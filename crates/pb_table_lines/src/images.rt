//! Lines of images.
ghost use Rattle.std.specs.Prelude.{◌≡◌, ◌≤◌, ◌+◌, ◌*◌, ◌<◌, ◌^◌, All, length, IfOk, OnOk, Err, Ok, Result};
ghost use Rattle.pb_packed.specs.Sizes.{most_digits};
ghost use Rattle.pb_packed.specs.Words.{AreWords};
ghost use Rattle.pb_table_lines.specs.Words.{words_for};
ghost use Rattle.pb_table_lines.specs.Faults.{Gives, Adds, AddsImage};
ghost use Rattle.pb_table_lines.specs.Reading.{values_in, image_in, images_at};

use crate::fault::LinesError;
use crate::line::{behind_in, line_at, state_in, value_in};
use crate::words::cut_word;
use pb_packed::Packed;
use pb_tables::ImageList;
use std::alloc::Global;
use std::marker::Model;

/// Images that are read, and their values: those of one image after another.
#[derive(Drop)]
pub struct ReadImages {
    pub listed: ImageList,
    pub values: Vec<u64>,
}

impl Model for ReadImages {
    ghost use Rattle.pb_table_lines.specs.Reading.{StatedImages};

    ghost Value = { StatedImages };

    ghost view = { λ i. record { listed = i.listed; values = i.values.items } };
}

// Adds so many values of a line. It goes at most 64 values deep.
#[tactic(auto, unfolding(crate::specs::Reading::values_in))]
fn add_values(values: &mut Vec<u64>, count: usize, line: u64, text: &[u8]) -> Result<(), LinesError>
    ensures adds { Adds result values.old.items values.new.items (values_in count line text.now) }
    ensures many { OnOk result (length values.new.items ≡ length values.old.items + count) }
    ensures small { All (λ value. value ≤ 2 ^ 40) values.old.items
        → All (λ value. value ≤ 2 ^ 40) values.new.items }
{
    if count == 0 {
        return if text.is_empty() {
            Ok(())
        } else {
            Err(LinesError::Unspelled { line })
        };
    }
    let said = behind_in(line, text, b" ")?;
    let (word, behind) = cut_word(said);
    let value = value_in(line, word)?;
    values.push(value)?;
    add_values(values, count - 1, line, behind)
}

// Adds the image of a line and its values. The image is read into the words first.
#[tactic(auto, unfolding(crate::specs::Reading::image_in))]
fn add_image(
    images: &mut ReadImages,
    digits: u32,
    sums: usize,
    line: u64,
    text: &[u8],
    words: &mut [u64],
) -> Result<(), LinesError>
    requires some { 1 ≤ digits }
    requires most { digits ≤ most_digits }
    requires long { length words.old ≡ words_for digits }
    requires words { AreWords (length words.old) words.old }
    ensures adds { AddsImage result images.old images.new (image_in digits sums line text.now) }
    ensures many { OnOk result (length images.new.values ≡ length images.old.values + sums) }
    ensures small { All (λ value. value ≤ 2 ^ 40) images.old.values
        → All (λ value. value ≤ 2 ^ 40) images.new.values }
    ensures words { AreWords (length words.old) words.new }
{
    let (first, behind) = text.split_at(text.len().min(digits as usize));
    state_in(digits, line, first, words)?;
    // If the values are refused, the image stays without them: the caller then drops all images.
    images.listed.push(&Packed::of_slice(words))?;
    add_values(&mut images.values, sums, line, behind)
}

/// So many images with values for so many sums, one a line, and the text after them. Each is read
/// into the words first.
pub fn images_at<'a>(
    alloc: Global,
    digits: u32,
    sums: usize,
    count: u64,
    line: u64,
    text: &'a [u8],
    words: &mut [u64],
) -> Result<(ReadImages, &'a [u8]), LinesError>
    requires some { 1 ≤ digits }
    requires most { digits ≤ most_digits }
    requires long { length words.old ≡ words_for digits }
    requires words { AreWords (length words.old) words.old }
    requires lines { line + length text.now < 2 ^ 64 }
    ensures gives { Gives (λ x. (x.0, x.1.now)) result
        (images_at digits sums count line text.now) }
    ensures many { IfOk result (λ x. length x.0.values ≡ length x.0.listed * sums) }
    ensures small { IfOk result (λ x. All (λ value. value ≤ 2 ^ 40) x.0.values) }
    ensures few { IfOk result (λ x. length x.0.listed ≤ count) }
    ensures shorter { IfOk result (λ x. length x.1.now + length x.0.listed ≤ length text.now) }
    ensures words { AreWords (length words.old) words.new }
{
    let mut images = ReadImages {
        listed: ImageList::new(alloc),
        values: Vec::new(alloc),
    };
    let mut rest = text;
    for i in 0..count {
        // Each line takes a byte of the text at least, so `line + i` fits.
        let (first, after) = line_at(line + i, rest)?;
        add_image(&mut images, digits, sums, line + i, first, words)?;
        rest = after;
    }
    Ok((images, rest))
}
