//! Lists of fixed room: the targets of a setup and of a row, and a row's cells.

ghost use Rattle.std.specs.Prelude.{◌≡◌, ◌≤◌, ◌<◌, ◌∷◌, ◌++◌, [], ⊤, length};
ghost use Rattle.date_texts.specs.declared.target.TheConstants.{MAX_TARGETS};

use date_texts::MAX_TARGETS;
use std::alloc::AllocError;

/// At most as many items as there are targets, in order. Behind them stand blanks.
pub struct ShortList<T: Copy> {
    items: [T; MAX_TARGETS],
    count: u8,
    ghost few: { count ≤ MAX_TARGETS },
}

impl<T: Copy> Copy for ShortList<T> {}

impl<T: Copy> Clone for ShortList<T> {
    ghost is_clone = { λ list copy. copy ≡ list };

    ghost is_infallible = { λ _. ⊤ };

    fn clone(&self) -> Result<ShortList<T>, AllocError> {
        Ok(*self)
    }
}

impl<T: Copy> ShortList<T> {
    ghost use Rattle.register_records.specs.ShortLists.{items_in};

    /// The list of no item.
    pub fn new(blank: T) -> ShortList<T>
        ensures { items_in result ≡ [] }
    {
        ShortList {
            items: [blank; MAX_TARGETS],
            count: 0,
        }
    }

    /// The items.
    pub fn as_slice(&self) -> &[T]
        ensures value { result.now ≡ items_in self.now }
        ensures few { length result.now ≤ MAX_TARGETS }
    {
        &self.items[..self.count as usize]
    }

    /// Appends an item.
    pub(crate) fn push(&mut self, item: T)
        requires { length (items_in self.old) < MAX_TARGETS }
        ensures { items_in self.new ≡ items_in self.old ++ item ∷ [] }
    {
        self.items[self.count as usize] = item;
        self.count += 1;
    }
}
