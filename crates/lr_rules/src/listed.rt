// A list of values, which contracts see as a list.
use std::alloc::{AllocFailed, Global};
use std::marker::Model;

/// A thin type over a `Vec`, which contracts see as the list of its items: the field type of each record that a
/// definition speaks of.
#[derive(Drop)]
pub struct Listed<X> {
    items: Vec<X>,
}

impl<X> Model for Listed<X> {
    ghost use Rattle.std.specs.Prelude.{List};

    ghost Value = { List X };

    ghost view = { λ l. l.items.items };
}

impl<X> Listed<X> {
    ghost use Rattle.std.specs.Prelude.{◌≡◌, [], ◌∷◌, ◌++◌, length, OnOk, OnErr};

    /// A list without items, which has taken no memory.
    pub fn new(alloc: Global) -> Listed<X>
        ensures { result ≡ [] }
    {
        Listed {
            items: Vec::new(alloc),
        }
    }

    /// The list of a vector's items, without taking memory.
    pub fn from_vec(items: Vec<X>) -> Listed<X>
        ensures { result ≡ items.items }
    {
        Listed { items }
    }

    /// The vector of the items, without taking memory.
    pub fn into_vec(self) -> Vec<X>
        ensures { result.items ≡ self }
    {
        self.items
    }

    /// The items, in order.
    pub fn as_slice(&self) -> &[X]
        ensures { result.now ≡ self.now }
    {
        self.items.as_slice()
    }

    /// How many items there are.
    pub fn len(&self) -> usize
        ensures { result ≡ length self.now }
    {
        self.items.len()
    }

    /// Adds an item at the end; where there is no memory for it, the list stays as it was.
    pub fn push(&mut self, item: X) -> Result<(), AllocFailed<X>>
        ensures pushed { OnOk result (self.new ≡ self.old ++ item ∷ []) }
        ensures same { OnErr result (self.new ≡ self.old) }
    {
        self.items.push(item)
    }
}
