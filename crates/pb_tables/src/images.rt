//! Lists of images.
ghost use Rattle.std.specs.Prelude.{◌≡◌, ◌≤◌, ◌<◌, ◌*◌, ◌^◌, ◌++◌, ◌∷◌, [], OnOk, OnErr, length, slice_index};
ghost use Rattle.pb_packed.specs.Words.{number_of, AreWords};
ghost use Rattle.pb_tables.specs.Images.{place_in};
ghost use Rattle.pb_tables.specs.Order.{AreRising};

use crate::numbers::FlatNumbers;
use pb_packed::Packed;
use std::alloc::{AllocError, Global};
use std::marker::Model;

/// Images of states, each in as many words as the greatest of them takes. Contracts see the list.
#[derive(Drop)]
pub struct ImageList {
    numbers: FlatNumbers,
    alloc: Global,
}

impl Model for ImageList {
    ghost use Rattle.std.specs.Prelude.{ℕ, List};

    ghost Value = { List ℕ };

    ghost view = { λ l. l.numbers.numbers };
}

/// How many words an image takes.
pub fn words_for(image: &Packed) -> usize
    ensures fits { image.now < 2 ^ (64 * result) }
    ensures some { 1 ≤ result }
    ensures most { result ≤ 16 }
{
    let mut width = image.width();
    while 1 < width && *image < Packed::zero().with(64 * (width - 1) as u32, true) {
        width -= 1;
    }
    width
}

impl ImageList {
    /// No images. It takes no memory.
    pub fn new(alloc: Global) -> ImageList
        ensures { result ≡ [] }
    {
        ImageList {
            numbers: FlatNumbers::new(alloc, 1),
            alloc,
        }
    }

    /// Adds an image after the others. It may take memory for all of them, if it is the first that
    /// takes so many words.
    pub fn push(&mut self, image: &Packed) -> Result<(), AllocError>
        ensures ok { OnOk result (self.new ≡ self.old ++ image.now ∷ []) }
        ensures err { OnErr result (self.new ≡ self.old) }
    {
        // Both steps may fail. The first changes no number, so after an error the list is as
        // before.
        let width = words_for(image);
        self.numbers.widen(self.alloc, width)?;
        self.numbers.push(image)
    }

    /// How many images there are.
    pub fn len(&self) -> usize
        ensures { result ≡ length self.now }
    {
        self.numbers.len()
    }

    /// The words of the image in a place, the lowest first.
    #[inline]
    pub fn words_at(&self, place: usize) -> &[u64]
        requires { place < length self.now }
        ensures image { number_of result.now ≡ slice_index self.now place }
        ensures few { length result.now ≤ 16 }
        ensures words { AreWords (length result.now) result.now }
    {
        self.numbers.at(place)
    }

    /// The image in a place.
    #[inline]
    pub fn at(&self, place: usize) -> Packed
        requires { place < length self.now }
        ensures { result ≡ slice_index self.now place }
    {
        Packed::of_slice(self.words_at(place))
    }

    /// The place of an image among ones that rise, found by halving.
    pub fn place_of(&self, image: &Packed) -> Option<usize>
        requires { AreRising self.now }
        ensures { result ≡ place_in self.now image.now }
    {
        self.numbers.place(image)
    }

    /// The place of an image in words among ones that rise. The look begins at the place `near`, and
    /// takes the longer the farther the image is from it.
    #[inline]
    pub fn place_near(&self, image: &[u64], near: usize) -> Option<usize>
        requires few { length image.now ≤ 16 }
        requires words { AreWords (length image.now) image.now }
        requires rising { AreRising self.now }
        ensures { result ≡ place_in self.now (number_of image.now) }
    {
        if image.len() == self.numbers.width() {
            self.numbers.place_near(image, near)
        } else {
            self.place_of(&Packed::of_slice(image))
        }
    }
}
