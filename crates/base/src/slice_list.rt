// A list that is filled in a lent slice.
ghost use Rattle.std.specs.Prelude.{◌≡◌, ◌+◌, ◌<◌, ◌≤◌, length, slice_set, MatchResult};
ghost use Rattle.base.specs.Reasons.{nowhere};
ghost use Rattle.base.specs.declared.Reason.TheVariants.{ListTooShort};

use crate::{Reason, Refusal};

// The entries at the front of a lent slice that have been filled so far. What lies behind them is as it was.
#[derive(Drop)]
pub struct SliceList<'a, T> {
    slots: &'a mut [T],
    count: usize,
    ghost within: { count ≤ length slots.now },
}

impl<'a, T: Copy> SliceList<'a, T> {
    // A list with nothing filled yet.
    pub fn new(slots: &'a mut [T]) -> SliceList<'a, T>
        ensures same_list { result.slots.ghost_name ≡ slots.entry.ghost_name }
        ensures empty { (result.slots.now ≡ slots.old) × (result.count ≡ 0) }
    {
        SliceList { slots, count: 0 }
    }

    // How many entries are filled.
    pub fn count(&self) -> usize
        ensures { result ≡ self.now.count }
    {
        self.count
    }

    // Fills one entry more, if there is room for it.
    pub fn push(&mut self, entry: T) -> Result<(), Refusal>
        ensures same_list { self.new.slots.ghost_name ≡ self.old.slots.ghost_name }
        ensures pushed { MatchResult result (λ _. (self.old.count < length self.old.slots.now) × (self.new.slots.now ≡ slice_set self.old.slots.now self.old.count entry) × (self.new.count ≡ self.old.count + 1)) (λ e. (length self.old.slots.now ≤ self.old.count) × (self.new.slots.now ≡ self.old.slots.now) × (self.new.count ≡ self.old.count) × (e ≡ nowhere ListTooShort)) }
    {
        if self.count >= self.slots.len() {
            return Err(Reason::ListTooShort.into());
        }
        self.slots[self.count] = entry;
        self.count += 1;
        Ok(())
    }
}
