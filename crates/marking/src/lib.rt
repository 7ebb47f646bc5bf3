//! Which node records are live: a marking over bytes that are lent, one a record, cleared when it ends.
#![tactic(auto)]

ghost use Rattle.std.specs.Prelude.{◌≡◌, ℕ, ◌<◌, length, replicate, MatchOption, ◌==◌, count_by, slice_index, slice_set};
ghost use Rattle.marking.specs.Marks.{Marked, tally};

/// A record is live while its byte is 1; a record past the bytes never is.
pub struct Marking<'a> {
    bytes: &'a mut [u8],
}

/// A marking leaves every byte 0, however it ends.
impl Drop for Marking<'_> {
    fn drop(self)
        ensures { self.exit.0.now ≡ replicate (length self.entry.bytes.now) 0 }
    {
        let Marking { bytes: marks } = self;
        marks.fill(0);
    }
}

impl<'a> Marking<'a> {
    /// No record is live, whatever the bytes held.
    pub fn new(bytes: &'a mut [u8]) -> Marking<'a>
        ensures same_bytes { result.bytes.ghost_name ≡ bytes.entry.ghost_name }
        ensures starts_clear { result.bytes.now ≡ replicate (length bytes.old) 0 }
    {
        bytes.fill(0);
        Marking { bytes }
    }

    /// Whether a record is live.
    pub fn is_marked(&self, number: usize) -> bool
        ensures { result ≡ (slice_index self.now.bytes.now number == 1) }
    {
        self.bytes.get(number).is_some_and(|byte| *byte == 1)
    }

    /// A record becomes live; past the bytes nothing is marked.
    pub fn mark(&mut self, number: usize)
        ensures same_bytes { self.new.bytes.ghost_name ≡ self.old.bytes.ghost_name }
        ensures one_byte_written { self.new.bytes.now ≡ slice_set self.old.bytes.now number 1 }
    {
        if number < self.bytes.len() {
            self.bytes[number] = 1;
        }
    }

    /// The first record that is not live.
    pub fn vacant(&self) -> Option<usize>
        ensures { MatchOption result ((i : ℕ) → i < length self.now.bytes.now → Marked self.now.bytes.now i) (λ i. (i < length self.now.bytes.now) × (Marked self.now.bytes.now i → ⊥)) }
    {
        self.bytes.iter().position(|byte| *byte != 1)
    }

    /// How many records are live.
    pub fn count(&self) -> usize
        ensures { result ≡ tally (length self.now.bytes.now) self.now.bytes.now }
    {
        ones(self.bytes)
    }
}

/// How many bytes are 1.
fn ones(bytes: &[u8]) -> usize
    ensures { result ≡ count_by (λ byte. byte == 1) bytes.now }
{
    bytes.iter().filter(|byte| **byte == 1).count()
}
