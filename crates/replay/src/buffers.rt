//! The entries that a script keeps.
use arrayvec::ArrayVec;
use replay_items::MOST;

// Two buffers of a kind. One is lent to a call, and the other is spare: an exchange says which, and moves no entry.
#[derive(Drop)]
pub(crate) struct Buffers<E> {
    first: ArrayVec<E, MOST>,
    second: ArrayVec<E, MOST>,
    second_is_lent: bool,
}

impl<E: Copy + Default> Buffers<E> {
    pub(crate) fn new() -> Buffers<E> {
        Buffers {
            first: ArrayVec::new(),
            second: ArrayVec::new(),
            second_is_lent: false,
        }
    }

    pub(crate) fn lent(&self) -> &[E] {
        if self.second_is_lent {
            self.second.as_slice()
        } else {
            self.first.as_slice()
        }
    }

    pub(crate) fn lent_mut(&mut self) -> &mut [E] {
        if self.second_is_lent {
            self.second.as_mut_slice()
        } else {
            self.first.as_mut_slice()
        }
    }

    // As many entries as the length says, each of them this one.
    pub(crate) fn replace(&mut self, length: usize, entry: E) {
        if self.second_is_lent {
            refill(length, entry, &mut self.second);
        } else {
            refill(length, entry, &mut self.first);
        }
    }

    // Sets an entry, if there is one at the place.
    pub(crate) fn poke(&mut self, index: usize, entry: E) -> bool {
        let Some(old) = self.lent_mut().get_mut(index) else {
            return false;
        };
        *old = entry;
        true
    }

    pub(crate) fn swap(&mut self) {
        self.second_is_lent = !self.second_is_lent;
    }
}

// How many entries are written at once.
const BLOCK: usize = 64;

// As many items as the length says, each of them this one. They are written where they stand, as in `set_items`.
fn refill<E: Copy + Default>(length: usize, item: E, vector: &mut ArrayVec<E, MOST>) {
    let block = [item; BLOCK];
    vector.clear();
    for start in (0..length).step_by(BLOCK) {
        let count = BLOCK.min(length - start);
        // There is room for as many as a script can name.
        let _ = vector.try_extend_from_slice(&block[..count]);
    }
}

// Puts items in the place of those of a vector. They are written where they stand: a vector that is made and moved would be copied whole.
pub(crate) fn set_items<E: Copy + Default>(items: &[E], vector: &mut ArrayVec<E, MOST>) {
    vector.clear();
    // There is room for as many as a script can name.
    let _ = vector.try_extend_from_slice(items);
}
