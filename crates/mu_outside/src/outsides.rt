ghost use Rattle.std.specs.Prelude.{◌≡◌, ◌≤◌, ◌<◌, ℕ, List, true, false, length, take, option_map, IfOk, IfSome, Some, MatchResult};
ghost use Rattle.mu_outside.specs.Disks.{Disk, Imaged, IsImage, wrote, shortened, settled};
ghost use Rattle.mu_outside.specs.Outsides.{Observed, content, HasCause, KeepsButInput, KeepsButTold, KeepsButName, KeepsButDisk, Passes, Quietly, Telling, Takes, Tells, Measures, Reads, Changes, Syncs, count_of};

/// A call of the outside failed.
#[derive(Clone, Copy, Debug, PartialEq, Eq)]
pub struct Failed;

/// What a run reads from and prints to, and the disk that its journal lies on, under one clock.
///
/// A run is stopped by a crash at any moment. What the crash leaves is an image of the disk: after a call of `sync` that
/// succeeds exactly what a read gives, and until the next one any bytes that differ from these only in the ranges that
/// were written or cut since, with an end between the lowest and the highest one since.
pub trait Outside {
    /// What is known of the input, the printed bytes, the disk and the faults.
    ghost observed: { Self → Observed };

    /// At some moment since this time a crash might have left this image of the disk, with these bytes printed.
    ghost moment: { Self → ℕ → List ℕ → List ℕ → Type 0 };

    /// Moves the first bytes of the input into the buffer and answers their number, 0 exactly at the input's end.
    ///
    /// # Errors
    ///
    /// `Failed` leaves the input as it was, and comes only where the count of read faults rises.
    fn take(&mut self, buf: &mut [u8]) -> Result<usize, Failed>
        requires { 0 < length buf.old }
        ensures input { Takes (observed self.old).left (observed self.new).left result buf.new }
        ensures rest { KeepsButInput (observed self.old) (observed self.new) }
        ensures cause { HasCause (observed self.old).read_faults (observed self.new).read_faults result }
        ensures time { Passes (observed self.old).clock (observed self.new).clock (moment self.old) (moment self.new) }
        ensures inside { Quietly (observed self.old).disk (observed self.old).told (moment self.new (observed self.old).clock) };

    /// Prints the first bytes of the piece and answers their number, at least 1.
    ///
    /// # Errors
    ///
    /// `Failed` prints nothing, and comes only where the count of tell faults rises.
    fn tell(&mut self, piece: &[u8]) -> Result<usize, Failed>
        requires { 0 < length piece.now }
        ensures output { Tells (observed self.old).told (observed self.new).told result piece.now }
        ensures rest { KeepsButTold (observed self.old) (observed self.new) }
        ensures cause { HasCause (observed self.old).tell_faults (observed self.new).tell_faults result }
        ensures time { Passes (observed self.old).clock (observed self.new).clock (moment self.old) (moment self.new) }
        ensures inside { Telling (observed self.old).disk (observed self.old).told (take (count_of result) piece.now) (moment self.new (observed self.old).clock) };

    /// Names the journal, and makes an empty one where there is none. It comes before each other call of the disk.
    ///
    /// # Errors
    ///
    /// `Failed` names nothing, and comes only where the count of disk faults rises.
    fn attach(&mut self, path: &str) -> Result<(), Failed>
        requires { (observed self.old).attached ≡ false }
        ensures done { MatchResult result (λ _. (observed self.new).attached ≡ true) (λ _. (observed self.new).attached ≡ false) }
        ensures rest { KeepsButName (observed self.old) (observed self.new) }
        ensures cause { HasCause (observed self.old).disk_faults (observed self.new).disk_faults result }
        ensures time { Passes (observed self.old).clock (observed self.new).clock (moment self.old) (moment self.new) }
        ensures inside { Quietly (observed self.old).disk (observed self.old).told (moment self.new (observed self.old).clock) };

    /// The number of the journal's bytes.
    ///
    /// # Errors
    ///
    /// `Failed` comes only where the count of disk faults rises.
    fn length(&mut self) -> Result<u64, Failed>
        requires { (observed self.old).attached ≡ true }
        ensures value { Measures (content (observed self.old)) result }
        ensures disk { (observed self.new).disk ≡ (observed self.old).disk }
        ensures rest { KeepsButDisk (observed self.old) (observed self.new) }
        ensures cause { HasCause (observed self.old).disk_faults (observed self.new).disk_faults result }
        ensures time { Passes (observed self.old).clock (observed self.new).clock (moment self.old) (moment self.new) }
        ensures inside { Quietly (observed self.old).disk (observed self.old).told (moment self.new (observed self.old).clock) };

    /// Copies some of the journal's bytes, from the place `at` on, to the front of the buffer and answers their number, 0
    /// exactly where `at` is at or past the end.
    ///
    /// # Errors
    ///
    /// `Failed` comes only where the count of disk faults rises.
    fn read_at(&mut self, at: u64, buf: &mut [u8]) -> Result<usize, Failed>
        requires room { 0 < length buf.old }
        requires attached { (observed self.old).attached ≡ true }
        ensures bound { IfOk result (λ n. n ≤ length buf.new) }
        ensures value { Reads (content (observed self.old)) at result buf.new }
        ensures disk { (observed self.new).disk ≡ (observed self.old).disk }
        ensures rest { KeepsButDisk (observed self.old) (observed self.new) }
        ensures cause { HasCause (observed self.old).disk_faults (observed self.new).disk_faults result }
        ensures time { Passes (observed self.old).clock (observed self.new).clock (moment self.old) (moment self.new) }
        ensures inside { Quietly (observed self.old).disk (observed self.old).told (moment self.new (observed self.old).clock) };

    /// Writes these bytes from the place `at` on, over what is there and past the end. `at` is at most the length.
    ///
    /// # Errors
    ///
    /// `Failed` leaves the disk somewhere between what it was and what it would be, and comes only where the count of disk
    /// faults rises.
    fn write_at(&mut self, at: u64, bytes: &[u8]) -> Result<(), Failed>
        requires place { IfSome (content (observed self.old)) (λ old. at ≤ length old) }
        requires attached { (observed self.old).attached ≡ true }
        ensures disk { Changes (wrote at bytes.now) (observed self.old).disk (observed self.new).disk result }
        ensures rest { KeepsButDisk (observed self.old) (observed self.new) }
        ensures cause { HasCause (observed self.old).disk_faults (observed self.new).disk_faults result }
        ensures time { Passes (observed self.old).clock (observed self.new).clock (moment self.old) (moment self.new) }
        ensures inside { Quietly (option_map (wrote at bytes.now) (observed self.old).disk) (observed self.old).told (moment self.new (observed self.old).clock) };

    /// Cuts the journal to its first `at` bytes. `at` is at most the length.
    ///
    /// # Errors
    ///
    /// `Failed` leaves the disk somewhere between what it was and what it would be, and comes only where the count of disk
    /// faults rises.
    fn cut(&mut self, at: u64) -> Result<(), Failed>
        requires place { IfSome (content (observed self.old)) (λ old. at ≤ length old) }
        requires attached { (observed self.old).attached ≡ true }
        ensures disk { Changes (shortened at) (observed self.old).disk (observed self.new).disk result }
        ensures rest { KeepsButDisk (observed self.old) (observed self.new) }
        ensures cause { HasCause (observed self.old).disk_faults (observed self.new).disk_faults result }
        ensures time { Passes (observed self.old).clock (observed self.new).clock (moment self.old) (moment self.new) }
        ensures inside { Quietly (option_map (shortened at) (observed self.old).disk) (observed self.old).told (moment self.new (observed self.old).clock) };

    /// Makes sure of what a read gives: a crash after it leaves that and nothing else.
    ///
    /// # Errors
    ///
    /// `Failed` makes sure of nothing more than before, and comes only where the count of disk faults rises.
    fn sync(&mut self) -> Result<(), Failed>
        requires attached { (observed self.old).attached ≡ true }
        ensures disk { Syncs settled (observed self.old).disk (observed self.new).disk result }
        ensures content { content (observed self.new) ≡ content (observed self.old) }
        ensures rest { KeepsButDisk (observed self.old) (observed self.new) }
        ensures cause { HasCause (observed self.old).disk_faults (observed self.new).disk_faults result }
        ensures time { Passes (observed self.old).clock (observed self.new).clock (moment self.old) (moment self.new) }
        ensures inside { Quietly (observed self.old).disk (observed self.old).told (moment self.new (observed self.old).clock) };

    /// What a read gives is among what a crash may leave.
    ghost honest: { (out : Self) (disk : Disk) → (observed out).disk ≡ Some disk → IsImage disk disk.content };

    /// At this moment a crash leaves what the disk may leave, with the bytes printed so far.
    ghost only_now: { (out : Self) (image told : List ℕ) → moment out (observed out).clock image told → Imaged (observed out).disk image × ((observed out).told ≡ Some told) };

    /// At this moment a crash may leave each image of the disk.
    ghost counts_now: { (out : Self) (image told : List ℕ) → Imaged (observed out).disk image → (observed out).told ≡ Some told → moment out (observed out).clock image told };

    /// The moments since a later time are among those since an earlier one.
    ghost earlier: { (out : Self) (time later : ℕ) (image told : List ℕ) → time ≤ later → later ≤ (observed out).clock → moment out later image told → moment out time image told };
}
