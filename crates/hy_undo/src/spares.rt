//! Blank before-images that are kept ready.

ghost use Rattle.std.specs.Prelude.{◌≡◌, ◌+◌, ◌<◌, ◌≤◌, OnOk, OnErr};
ghost use Rattle.hy_undo.specs.Stock.{blank};

use crate::delta::Delta;
use hy_value::Text;
use std::alloc::{AllocError, Global};
use std::marker::Model;

/// Blank before-images, and places for the texts that are noted in them, so that a write takes no memory.
#[derive(Drop)]
pub struct Spares {
    images: Vec<Delta>,
    columns: usize,
    /// For how many texts there are places for each image.
    texts: usize,
    places: Vec<Box<Text>>,
    /// How many places are kept for no image.
    free: usize,
}

impl Model for Spares {
    ghost use Rattle.std.specs.Prelude.{vec_len};
    ghost use Rattle.hy_undo.specs.Stock.{Stock, stock_code, IsStocked};

    ghost Value = { Stock };

    ghost coded = { stock_code };

    ghost view = { λ a. record {
      count = vec_len a.images;
      columns = a.columns;
      texts = a.texts;
      free = a.free;
    } };

    ghost invariant = { λ a. IsStocked a.images.items a.columns a.texts a.free (vec_len a.places) };
}

impl Spares {
    /// None, of so many columns, of which so many are of texts. It takes no memory.
    pub fn new(alloc: Global, columns: usize, texts: usize) -> Spares
        ensures { result ≡ record { count = 0; columns = columns; texts = texts; free = 0 } }
    {
        Spares {
            images: Vec::new(alloc),
            columns,
            texts,
            places: Vec::new(alloc),
            free: 0,
        }
    }

    /// The allocator of what it allocates.
    pub fn allocator(&self) -> Global {
        *self.images.allocator()
    }

    /// Makes before-images until there are so many. There are never fewer. Err is for want of memory.
    pub fn reserve(&mut self, count: usize) -> Result<(), AllocError>
        ensures same { (self.new.columns ≡ self.old.columns) × (self.new.texts ≡ self.old.texts) }
        ensures ok { OnOk result (count ≤ self.new.count) }
        ensures kept { self.old.count ≤ self.new.count }
        ensures err { OnErr result (self.old.count < count) }
    {
        for _image in self.images.len()..count {
            self.add_image()?;
        }
        Ok(())
    }

    /// Makes one more before-image.
    fn add_image(&mut self) -> Result<(), AllocError>
        ensures same { (self.new.columns ≡ self.old.columns) × (self.new.texts ≡ self.old.texts) }
        ensures ok { OnOk result (self.new.count ≡ self.old.count + 1) }
        ensures kept { self.old.count ≤ self.new.count }
    {
        self.add_places()?;
        let image = Delta::blank(self.allocator(), self.columns)?;
        self.keep_image(image)
    }

    /// Keeps one more before-image, for which there are places.
    fn keep_image(&mut self, image: Delta) -> Result<(), AllocError>
        requires blank { image ≡ blank self.old.columns }
        requires free { self.old.texts ≤ self.old.free }
        ensures same { (self.new.columns ≡ self.old.columns) × (self.new.texts ≡ self.old.texts) }
        ensures ok { OnOk result (self.new.count ≡ self.old.count + 1) }
        ensures kept { self.old.count ≤ self.new.count }
    {
        self.images.push(image)?;
        self.free -= self.texts;
        Ok(())
    }

    /// Makes places for the texts of one more before-image.
    fn add_places(&mut self) -> Result<(), AllocError>
        ensures same { (self.new.columns ≡ self.old.columns) × (self.new.texts ≡ self.old.texts) }
        ensures count { self.new.count ≡ self.old.count }
        ensures ok { OnOk result (self.new.texts ≤ self.new.free) }
    {
        for _place in self.free..self.texts {
            self.add_place()?;
        }
        Ok(())
    }

    /// Makes one more place for a text.
    fn add_place(&mut self) -> Result<(), AllocError>
        ensures same { (self.new.columns ≡ self.old.columns) × (self.new.texts ≡ self.old.texts) }
        ensures count { self.new.count ≡ self.old.count }
        ensures ok { OnOk result (self.new.free ≡ self.old.free + 1) }
        ensures err { OnErr result (self.new ≡ self.old) }
    {
        let alloc = self.allocator();
        let place = Box::new(alloc, Text::empty(alloc))?;
        self.places.push(place)?;
        self.free += 1;
        Ok(())
    }

    /// Takes a before-image out. The places for its texts are free then.
    pub fn take(&mut self) -> Delta
        requires { 0 < self.old.count }
        ensures image { result ≡ blank self.old.columns }
        ensures same { (self.new.columns ≡ self.old.columns) × (self.new.texts ≡ self.old.texts) }
        ensures left { self.old.count ≡ self.new.count + 1 }
        ensures free { self.new.free ≡ self.old.free + self.old.texts }
    {
        match self.images.pop() {
            Some(image) => {
                self.free += self.texts;
                image
            }
            None => unreachable!(),
        }
    }

    /// Copies a text into a free place. It takes no memory.
    pub fn place(&mut self, text: &Text) -> Box<Text>
        requires { 0 < self.old.free }
        ensures text { result.value ≡ text.now }
        ensures same { (self.new.columns ≡ self.old.columns) × (self.new.texts ≡ self.old.texts) }
        ensures count { self.new.count ≡ self.old.count }
        ensures free { self.old.free ≡ self.new.free + 1 }
    {
        match self.places.pop() {
            Some(mut place) => {
                self.free -= 1;
                place.copy_from(text);
                place
            }
            None => unreachable!(),
        }
    }
}
